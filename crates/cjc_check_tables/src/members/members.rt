//! Whether a member is there: what is kept of the package and of imported classes, as the tests ask it (Java Card
//! Virtual Machine Specification 2.2.2, section 6.7). Called by `maps` and `entries`.

ghost use Rattle.std.specs.Prelude.{◌≡◌};
ghost use Rattle.cjc_check_index.specs.Lookup.Parts.{complete_of};
ghost use Rattle.cjc_check_tables.specs.Members.Working.Known.{HasMembers};
ghost use Rattle.cjc_check_rules.specs.Members.{describes_field, has_above, has_field, has_virtual, is_cell};
ghost use Rattle.cjc_check_rules.specs.PoolEntries.{is_field, is_method, names_member};
ghost use Rattle.cjc_check_rules.specs.Tables.{is_long_enough};

use crate::members::fields::{Fields, Place};
use crate::members::needs::{Needs, need_in};
use crate::members::virtuals::{class_at, has_among};
use cjc_capread::bytes::Row;
use cjc_capread::{ClassRef, FieldPlace, PoolEntry, StaticRef};
use cjc_check_index::imported::Tokens;
use cjc_check_index::lookup::Methods;

/// All that is kept for the tests of members.
#[derive(Drop)]
pub(crate) struct Members<'a> {
    pub(crate) methods: &'a Methods<'a>,
    pub(crate) tokens: &'a Tokens,
    /// Of each class, by token, whether its superclass has a virtual method.
    pub(crate) above: &'a [Row<bool>],
    pub(crate) fields: &'a Fields,
    pub(crate) needs: &'a Needs,
}

impl Members<'_> {
    /// Whether a class has a virtual method of a token.
    pub(crate) fn has_virtual(&self, class: ClassRef, token: u8) -> bool
        requires { HasMembers self.now }
        ensures { result ≡ has_virtual (complete_of self.now.methods.now.names.now.parts.now)
            self.now.methods.now.names.now.exports.now class token }
    {
        has_among(self.methods.names, self.tokens, self.above, class, token)
    }

    /// Whether the superclass of a class has a virtual method of a token.
    fn has_above(&self, class: ClassRef, token: u8) -> bool
        requires { HasMembers self.now }
        ensures { result ≡ has_above (complete_of self.now.methods.now.names.now.parts.now)
            self.now.methods.now.names.now.exports.now class token }
    {
        let names = self.methods.names;
        match class {
            ClassRef::Inside(offset) => match class_at(names, offset) {
                Some(found) => self.has_virtual(found.superclass, token),
                None => false,
            },
            ClassRef::Outside { package, class } => {
                self.tokens.inherits_virtual(names, package, class, token)
            }
        }
    }

    /// Whether Descriptor has an instance field of a class by its token.
    fn describes_field(&self, class: ClassRef, token: u8) -> bool
        requires { HasMembers self.now }
        ensures { result ≡ describes_field (complete_of self.now.methods.now.names.now.parts.now) class token }
    {
        self.fields.contains(&Place {
            place: FieldPlace::Instance { class, token },
        })
    }

    /// Whether a class has an instance field of a token.
    fn has_field(&self, class: ClassRef, token: u8) -> bool
        requires { HasMembers self.now }
        ensures { result ≡ has_field (complete_of self.now.methods.now.names.now.parts.now)
            self.now.methods.now.names.now.exports.now class token }
    {
        let is_described = self.describes_field(class, token);
        match class {
            ClassRef::Inside(_) => is_described,
            ClassRef::Outside { package, class } => {
                is_described
                    || self
                        .tokens
                        .has_field(self.methods.names, package, class, token)
            }
        }
    }

    /// Whether a static field has a cell at an offset of the static field image.
    fn is_cell(&self, offset: u64) -> bool
        requires { HasMembers self.now }
        ensures { result ≡ is_cell (complete_of self.now.methods.now.names.now.parts.now) offset }
    {
        let is_described = self.fields.contains(&Place {
            place: FieldPlace::Static(offset),
        });
        offset < self.methods.names.parts.statics.image_size && is_described
    }

    /// Whether a static field is there.
    fn is_field(&self, member: StaticRef) -> bool
        requires { HasMembers self.now }
        ensures { result ≡ is_field (complete_of self.now.methods.now.names.now.parts.now)
            self.now.methods.now.names.now.exports.now member }
    {
        match member {
            StaticRef::Inside(offset) => self.is_cell(offset),
            StaticRef::Outside {
                package,
                class,
                token,
            } => {
                self.tokens
                    .has_static_field(self.methods.names, package, class, token)
            }
        }
    }

    /// Whether a static method or a constructor is there.
    fn is_method(&self, member: StaticRef) -> bool
        requires { HasMembers self.now }
        ensures { result ≡ is_method (complete_of self.now.methods.now.names.now.parts.now)
            self.now.methods.now.names.now.exports.now member }
    {
        match member {
            StaticRef::Inside(offset) => self.methods.is_method_start(offset),
            StaticRef::Outside {
                package,
                class,
                token,
            } => {
                self.tokens
                    .has_static_method(self.methods.names, package, class, token)
            }
        }
    }

    /// Whether an entry of the constant pool names what is there.
    pub(crate) fn names_member(&self, entry: PoolEntry) -> bool
        requires { HasMembers self.now }
        ensures { result ≡ names_member (complete_of self.now.methods.now.names.now.parts.now)
            self.now.methods.now.names.now.exports.now entry }
    {
        match entry {
            PoolEntry::Classref(_) => true,
            PoolEntry::InstanceFieldref { class, token } => self.has_field(class, token),
            PoolEntry::VirtualMethodref { class, token } => self.has_virtual(class, token),
            PoolEntry::SuperMethodref { class, token } => self.has_above(class, token),
            PoolEntry::StaticFieldref(member) => self.is_field(member),
            PoolEntry::StaticMethodref(member) => self.is_method(member),
        }
    }

    /// Whether a map of so many indices is long enough for an interface.
    pub(crate) fn is_long_enough(&self, interface: ClassRef, count: usize) -> bool
        requires { HasMembers self.now }
        ensures { result ≡ is_long_enough (complete_of self.now.methods.now.names.now.parts.now)
            self.now.methods.now.names.now.exports.now interface count }
    {
        match interface {
            ClassRef::Inside(offset) => need_in(self.needs, offset) <= count as u64,
            ClassRef::Outside { package, class } => {
                match self.methods.names.imported(usize::from(package), class) {
                    Some(found) => found.methods.items().len() == count,
                    None => false,
                }
            }
        }
    }
}
