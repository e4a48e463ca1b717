//! `Tokens`: what `assigning` has found, kept for look-up in both directions, from a member to its token and
//! from a virtual token to its method. It assigns none.

ghost use Rattle.std.specs.Prelude.{◌≡◌, ◌<◌, length, position, IfSome};
ghost use Rattle.cjc_tokens.specs.Tokens.{field_of_token, has_token, method_of_token, package_methods_of};
ghost use Rattle.cjc_tokens.specs.Tokens.{public_methods_of, token_of_class, token_of_member};

use cjc_bytes::Row;
use cjc_world::Found;
use std::marker::Model;

/// The tokens of a class of the package and of its members.
#[derive(Drop)]
pub(crate) struct ClassTokens {
    pub class: Option<u8>,
    pub members: Row<Option<u8>>,
    pub instances: Row<Option<u8>>,
    pub public_methods: Row<Option<Found>>,
    pub package_methods: Row<Option<Found>>,
}

impl Model for ClassTokens {
    ghost use Rattle.cjc_tokens.specs.Tokens.{OfClass};

    ghost Value = { OfClass };

    ghost use Rattle.std.specs.Prelude.{◌<◌, ◌^◌, length};

    ghost view = { λ t. record {
      class = t.class;
      members = t.members;
      instances = t.instances;
      public_methods = t.public_methods;
      package_methods = t.package_methods;
    } };

    ghost invariant = { λ t. length t.instances < 2 ^ 32 };
}

/// The tokens of a package and of what its export files describe.
#[derive(Drop)]
pub struct Tokens {
    classes: Row<ClassTokens>,
    imports: Row<Row<Option<u8>>>,
}

impl Model for Tokens {
    ghost use Rattle.cjc_tokens.specs.Tokens.{Assigned};

    ghost Value = { Assigned };

    ghost view = { λ t. record { classes = t.classes; imports = t.imports } };
}

#[tactic(auto, using(cjc_world::proofs::Places::position_within))]
fn place_of(token: u8, tokens: &[Option<u8>]) -> Option<usize>
    ensures place { result ≡ position (λ o. has_token token o) tokens.now }
    ensures within { IfSome result (λ i. i < length tokens.now) }
{
    tokens.iter().position(|other| has_token(token, other))
}

impl ClassTokens {
    /// The place of the instance field of a token.
    fn field_by_token(&self, token: u8) -> Option<u32>
        ensures { result ≡ position (λ o. has_token token o) self.now.instances }
    {
        let place = place_of(token, self.instances.items())?;
        Some(place as u32)
    }
}

fn has_token(token: u8, other: &Option<u8>) -> bool
    ensures { result ≡ has_token token other.now }
{
    match other {
        None => false,
        Some(other) => *other == token,
    }
}

impl Tokens {
    /// The tokens of the classes of a package, in list order, and of the members of all imported classes.
    pub(crate) fn of(classes: Row<ClassTokens>, imports: Row<Row<Option<u8>>>) -> Tokens
        ensures { result ≡ record { classes = classes; imports = imports } }
    {
        Tokens { classes, imports }
    }

    /// The token of a class of the package, by its place in list order. None exactly where it is not exported.
    pub fn class_token(&self, class: u32) -> Option<u8>
        ensures { result ≡ token_of_class self.now class }
    {
        self.classes.items().get(class as usize)?.class
    }

    /// The token of a field or method. A package-visible virtual one's has its high bit set; a member of an imported
    /// class has the token of its export file.
    pub fn member_token(&self, id: Found) -> Option<u8>
        ensures { result ≡ token_of_member self.now id }
    {
        let members = if id.imported {
            self.imports.items().get(id.class as usize)?
        } else {
            &self.classes.items().get(id.class as usize)?.members
        };
        *members.items().get(id.member as usize)?
    }

    /// The method that a virtual token means in a class or interface of the package: that of the nearest class from it
    /// upwards that declares one or got it; of an interface its own, else that of the first of its superinterfaces.
    pub fn virtual_by_token(&self, class: u32, token: u8) -> Option<Found>
        ensures { result ≡ method_of_token self.now class token }
    {
        let class = self.classes.items().get(class as usize)?;
        if token < 128 {
            *class.public_methods.items().get(token as usize)?
        } else {
            *class.package_methods.items().get(token as usize - 128)?
        }
    }

    /// The methods that the tokens of public and protected virtual methods mean in a class of the package, or
    /// the tokens of an interface, by token. None at a token that no method has.
    pub fn public_methods(&self, class: u32) -> &[Option<Found>]
        ensures { result.now ≡ public_methods_of self.now class }
    {
        match self.classes.items().get(class as usize) {
            Some(class) => class.public_methods.items(),
            None => &[],
        }
    }

    /// The same of package-visible methods, by token without its high bit.
    pub fn package_methods(&self, class: u32) -> &[Option<Found>]
        ensures { result.now ≡ package_methods_of self.now class }
    {
        match self.classes.items().get(class as usize) {
            Some(class) => class.package_methods.items(),
            None => &[],
        }
    }

    /// The place of the instance field that a class of the package declares with a token.
    pub fn field_by_token(&self, class: u32, token: u8) -> Option<u32>
        ensures { result ≡ field_of_token self.now class token }
    {
        let class = self.classes.items().get(class as usize)?;
        class.field_by_token(token)
    }
}
