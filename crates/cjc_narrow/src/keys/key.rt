//! Keys of the constant pool as sets and maps have them: by names that code lends, or kept. It knows no order
//! and no index.

ghost use Rattle.std.specs.Prelude.{◌≡◌, IfOk};
ghost use Rattle.std.specs.Cmp.{partial_equiv_from_equiv};
ghost use Rattle.cjc_ncode.specs.declared.narrow.PoolKey.{PoolKey as Named};
ghost use Rattle.cjc_ncode.specs.declared.narrow.PoolKey.TheVariants as keys;
ghost use Rattle.cjc_ncode.specs.PoolOrder.{is_field, same_key, same_member};
ghost use Rattle.cjc_narrow.specs.Keys.Working.Key.{fed, key_named, key_of, member_of};
ghost use Rattle.cjc_narrow.specs.Keys.Working.Same.{same_key-equivalence, same_key-fed};

use cjc_ncode::PoolKey;
use cjc_types::bytes::{Bytes, MemberId, NoMemory};
use std::alloc::Global;
use std::hash::{Hash, Hasher};
use std::marker::Model;

/// A key by names that are lent.
#[derive(Clone, Copy)]
pub(crate) enum Name<'a> {
    Class(&'a [u8]),
    Field(&'a MemberId),
    Virtual(&'a MemberId),
    Super(&'a MemberId),
    StaticField(&'a MemberId),
    StaticMethod(&'a MemberId),
}

/// A key whose names are lent, or one that is kept.
#[derive(Drop)]
pub(crate) enum Kind<'a> {
    Lent(Name<'a>),
    Kept(PoolKey),
}

/// A key in a set.
pub struct Key<'a> {
    kind: Kind<'a>,
}

impl Drop for Key<'_> {
    fn drop(self) {
        let Key { kind: _kind } = self;
    }
}

impl<'a> Model for Key<'a> {
    ghost Value = { Named };

    ghost view = { λ k. key_of k.kind };
}

fn same_member(a: &MemberId, b: &MemberId) -> bool
    ensures { result ≡ same_member a.now b.now }
{
    a.class.items() == b.class.items()
        && (a.name.items() == b.name.items() && a.desc.items() == b.desc.items())
}

fn same(a: Name<'_>, b: Name<'_>) -> bool
    ensures { result ≡ same_key (key_named a.entry) (key_named b.entry) }
{
    match (a, b) {
        (Name::Class(c), Name::Class(d)) => c == d,
        (Name::Field(m), Name::Field(n)) => same_member(m, n),
        (Name::Virtual(m), Name::Virtual(n)) => same_member(m, n),
        (Name::Super(m), Name::Super(n)) => same_member(m, n),
        (Name::StaticField(m), Name::StaticField(n)) => same_member(m, n),
        (Name::StaticMethod(m), Name::StaticMethod(n)) => same_member(m, n),
        _ => false,
    }
}

fn named(key: &PoolKey) -> Name<'_>
    ensures { key_named result ≡ key.now }
{
    match key {
        PoolKey::Class(class) => Name::Class(class.items()),
        PoolKey::Field(member) => Name::Field(member),
        PoolKey::Virtual(member) => Name::Virtual(member),
        PoolKey::Super(member) => Name::Super(member),
        PoolKey::StaticField(member) => Name::StaticField(member),
        PoolKey::StaticMethod(member) => Name::StaticMethod(member),
    }
}

/// The same class, name and descriptor in memory of their own.
pub fn copy_member(alloc: Global, id: &MemberId) -> Result<MemberId, NoMemory>
    ensures { IfOk result (λ m. m ≡ id.now) }
{
    let class = Bytes::copy_of(alloc, id.class.items())?;
    let name = Bytes::copy_of(alloc, id.name.items())?;
    let desc = Bytes::copy_of(alloc, id.desc.items())?;
    Ok(MemberId { class, name, desc })
}

impl<'a> Name<'a> {
    fn class(self) -> &'a [u8]
        ensures { let m = member_of (key_named self.entry) in result.now ≡ m.class }
    {
        match self {
            Name::Class(class) => class,
            Name::Field(id)
            | Name::Virtual(id)
            | Name::Super(id)
            | Name::StaticField(id)
            | Name::StaticMethod(id) => id.class.items(),
        }
    }

    fn name(self) -> &'a [u8]
        ensures { let m = member_of (key_named self.entry) in result.now ≡ m.name }
    {
        match self {
            Name::Class(_) => &[],
            Name::Field(id)
            | Name::Virtual(id)
            | Name::Super(id)
            | Name::StaticField(id)
            | Name::StaticMethod(id) => id.name.items(),
        }
    }

    fn desc(self) -> &'a [u8]
        ensures { let m = member_of (key_named self.entry) in result.now ≡ m.desc }
    {
        match self {
            Name::Class(_) => &[],
            Name::Field(id)
            | Name::Virtual(id)
            | Name::Super(id)
            | Name::StaticField(id)
            | Name::StaticMethod(id) => id.desc.items(),
        }
    }

    /// The key in memory of its own.
    fn copy(self, alloc: Global) -> Result<PoolKey, NoMemory>
        ensures { IfOk result (λ key. key ≡ key_named self.entry) }
    {
        let key = match self {
            Name::Class(class) => PoolKey::Class(Bytes::copy_of(alloc, class)?),
            Name::Field(id) => PoolKey::Field(copy_member(alloc, id)?),
            Name::Virtual(id) => PoolKey::Virtual(copy_member(alloc, id)?),
            Name::Super(id) => PoolKey::Super(copy_member(alloc, id)?),
            Name::StaticField(id) => PoolKey::StaticField(copy_member(alloc, id)?),
            Name::StaticMethod(id) => PoolKey::StaticMethod(copy_member(alloc, id)?),
        };
        Ok(key)
    }
}

impl<'a> Key<'a> {
    /// A key that code lends.
    pub fn lent(key: &'a PoolKey) -> Key<'a>
        ensures { result ≡ key.now }
    {
        Key {
            kind: Kind::Lent(named(key)),
        }
    }

    /// The key of a class.
    pub fn class(name: &'a [u8]) -> Key<'a>
        ensures { result ≡ keys.Class name.now }
    {
        Key {
            kind: Kind::Lent(Name::Class(name)),
        }
    }

    /// The key of a virtual method.
    pub fn method(id: &'a MemberId) -> Key<'a>
        ensures { result ≡ keys.Virtual id.now }
    {
        Key {
            kind: Kind::Lent(Name::Virtual(id)),
        }
    }

    /// A key of its own.
    pub fn kept(key: PoolKey) -> Key<'a>
        ensures { result ≡ key }
    {
        Key {
            kind: Kind::Kept(key),
        }
    }

    fn name(&self) -> Name<'_>
        ensures { key_named result ≡ self.now }
    {
        match &self.kind {
            Kind::Lent(name) => *name,
            Kind::Kept(key) => named(key),
        }
    }

    /// Whether it names an instance field.
    pub fn is_field(&self) -> bool
        ensures { result ≡ is_field self.now }
    {
        matches!(self.name(), Name::Field(_))
    }

    /// The key in memory of its own.
    pub fn copy(&self, alloc: Global) -> Result<PoolKey, NoMemory>
        ensures { IfOk result (λ key. key ≡ self.now) }
    {
        let key = self.name().copy(alloc)?;
        Ok(key)
    }
}

impl<'a> PartialEq for Key<'a> {
    ghost eq = { same_key };

    ghost laws = { partial_equiv_from_equiv same_key-equivalence };

    fn eq(&self, other: &Key<'a>) -> bool {
        same(self.name(), other.name())
    }
}

impl<'a> Eq for Key<'a> {
    ghost laws = { same_key-equivalence };
}

impl<'a> Hash for Key<'a> {
    ghost hash_input = { fed };

    ghost respects_eq = { same_key-fed };

    fn hash<H: Hasher>(&self, state: &mut H) {
        let name = self.name();
        name.class().hash(state);
        name.name().hash(state);
        name.desc().hash(state);
    }
}
