//! What an export file is made from: the list, the world, the tokens, and the classes by their numbers. Its
//! look-ups take no memory and walk over no list of classes.

ghost use Rattle.std.specs.Prelude.{◌≡◌, ◌+◌, length, map, nat_lt, option_map, slice_get, unwrap_or, IfOk, Some};
ghost use Rattle.cjc_world.specs.Added.{added, named_by};
ghost use Rattle.cjc_world.specs.Classes.{class_at};
ghost use Rattle.cjc_world.specs.Lookup.{member_at};
ghost use Rattle.cjc_world.specs.Working.Known.{class_of};
ghost use Rattle.cjc_components.specs.LowerTokens.Tokens.{assigned, public_methods_of, token_of_class};
ghost use Rattle.cjc_components.specs.Descriptor.{method_in};
ghost use Rattle.cjc_components.specs.ExportFile.{method_meant};
ghost use Rattle.cjc_components.specs.Names.{member_token};
ghost use Rattle.cjc_components.specs.Package.{has_applets, tokens};
ghost use Rattle.cjc_exported.specs.ExportFile.Working.Plain.{plain};
ghost use Rattle.cjc_exported.specs.ExportFile.Working.Sources.{AreSources, IsNumbered, bare, method_of, package_in};
ghost use Rattle.cjc_exported.specs.ExportFile.Working.Sources.{world_in};

use crate::export_file::method::{Method, given_at, own_method};
use crate::export_file::numbered::classes_of_kind;
use cjc_components::list::List;
use cjc_components::tokens::Tokens;
use cjc_world::bytes::{MemberId, NoMemory};
use cjc_world::{Found, Known, World};
use std::alloc::Global;

/// Of what has no token.
const NO_TOKEN: u8 = 0xFF;

/// What the export file of a package is made from.
#[derive(Drop)]
pub(crate) struct Source<'w, 'a> {
    pub list: &'w List,
    pub world: &'w World<'a>,
    pub tokens: &'w Tokens,
    /// The classes of the package by number.
    pub declared: Vec<Known<'w, 'a>>,
    /// Those of all export files by number.
    pub imported: Vec<Known<'w, 'a>>,
}

/// A place among the members of a class. No class of a world has more members than 32 bits count.
pub(crate) fn place_after(first: usize, place: usize) -> Result<u32, NoMemory>
    ensures { IfOk result (λ sum. sum ≡ first + place) }
{
    if first < 0x8000_0000 && place < 0x8000_0000 {
        Ok((first + place) as u32)
    } else {
        Err(NoMemory)
    }
}

/// The class of a number among those of its kind.
fn class_in<'w, 'a>(classes: &[Known<'w, 'a>], number: u32) -> Option<Known<'w, 'a>>
    ensures { result ≡ slice_get classes.now number }
{
    classes.get(number as usize).copied()
}

impl<'w, 'a> Source<'w, 'a> {
    /// What an export file is made from: a list, its world, and the tokens of the package.
    pub(crate) fn new(
        alloc: Global,
        list: &'w List,
        world: &'w World<'a>,
        tokens: &'w Tokens,
    ) -> Result<Source<'w, 'a>, NoMemory>
        requires { tokens.now ≡ assigned (nat_lt 0 (length list.now.applets)) world.now }
        ensures sources { IfOk result (λ s. AreSources s) }
        ensures package { IfOk result (λ s. package_in s ≡ plain list.now world.now) }
    {
        let declared = classes_of_kind(alloc, world, false)?;
        let imported = classes_of_kind(alloc, world, true)?;
        Ok(Source {
            list,
            world,
            tokens,
            declared,
            imported,
        })
    }

    /// Whether the package has applets.
    pub(crate) fn has_applets(&self) -> bool
        ensures { result ≡ has_applets (package_in self.now) }
    {
        self.list.applets.items().len() > 0
    }

    /// The class that a look-up means by its number.
    fn class_at(&self, found: Found) -> Option<Known<'w, 'a>>
        requires { AreSources self.now }
        ensures { option_map class_of result ≡ class_at (world_in self.now) found.imported found.class }
    {
        if found.imported {
            class_in(self.imported.as_slice(), found.class)
        } else {
            class_in(self.declared.as_slice(), found.class)
        }
    }

    /// The token of a class of the package; 0xFF where it has none.
    pub(crate) fn class_token(&self, class: Known<'_, '_>) -> u8
        requires { AreSources self.now }
        ensures { result ≡ unwrap_or (token_of_class (tokens (package_in self.now)) (class_of class.entry).number)
            0xFF }
    {
        self.tokens.class_token(class.number()).unwrap_or(NO_TOKEN)
    }

    /// The token of the member at a place of a class; 0xFF where it has none.
    pub(crate) fn member_token(&self, class: Known<'_, '_>, member: u32) -> u8
        requires { AreSources self.now }
        ensures { result ≡ member_token (package_in self.now) (Some (member_at (class_of class.entry) member)) }
    {
        let found = Found {
            imported: class.is_imported(),
            class: class.number(),
            member,
        };
        self.tokens.member_token(found).unwrap_or(NO_TOKEN)
    }

    /// The methods that the tokens of virtual methods mean in a class of the package, or the tokens of an interface.
    pub(crate) fn methods_by_token(&self, class: Known<'_, '_>) -> &'w [Option<Found>]
        requires { AreSources self.now }
        ensures { result.now ≡ public_methods_of (tokens (package_in self.now)) (class_of class.entry).number }
    {
        self.tokens.public_methods(class.number())
    }

    /// The methods that are added to a class.
    pub(crate) fn given(&self, class: Known<'_, '_>) -> &'w [MemberId]
        requires { IsNumbered self.now (class_of class) }
        ensures { result.now ≡ map (named_by (class_of class.entry).name) (added (world_in self.now)
            (class_of class.entry)) }
    {
        if class.is_imported() {
            return &[];
        }
        let number = class.number();
        if (number as usize) < self.world.classes().items().len() {
            self.world.added(number).items()
        } else {
            &[]
        }
    }

    /// The method at a place among the members of a class, those that are added behind its own.
    fn method_in(&self, class: Known<'w, '_>, member: u32) -> Method<'w>
        requires { IsNumbered self.now (class_of class) }
        ensures { method_of result ≡ bare (method_in (world_in self.now) (class_of class.entry) member) }
    {
        let place = (member as usize).saturating_sub(class.field_count());
        let count = class.member_count(false);
        if place < count {
            own_method(class, place)
        } else {
            given_at(self.given(class), place - count)
        }
    }

    /// The method that a token means.
    pub(crate) fn method_meant(&self, found: Found) -> Option<Method<'w>>
        requires { AreSources self.now }
        ensures { option_map method_of result ≡ option_map bare (method_meant (world_in self.now) found) }
    {
        let class = self.class_at(found)?;
        Some(self.method_in(class, found.member))
    }
}
