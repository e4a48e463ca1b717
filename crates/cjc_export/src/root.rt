//! java/lang/Object above every other class and interface of an export file, whether the file lists it or not. For
//! the reader of a class; a written class has its list twice.

ghost use Rattle.std.specs.Prelude.{◌≡◌, IfOk};
ghost use Rattle.std.specs.List.{list_any};
ghost use Rattle.std.specs.Str.{bytes_eq};
ghost use Rattle.cjc_export.specs.Root.{object, with_root};

use cjc_bytes::{Bytes, NoMemory, Row};
use std::alloc::Global;

/// The class above all others.
const OBJECT: &[u8] = b"java/lang/Object";

/// The same names again.
pub fn copies_of(alloc: Global, names: &[Bytes]) -> Result<Row<Bytes>, NoMemory>
    ensures { IfOk result (λ copies. copies ≡ names.now) }
{
    let mut copies = Row::new(alloc);
    for name in names {
        copies.push(Bytes::copy_of(alloc, name.items())?)?;
    }
    Ok(copies)
}

fn has_root(names: &[Bytes]) -> bool
    ensures { result ≡ list_any (λ x. bytes_eq x object) names.now }
{
    names.iter().any(|name| name.items() == OBJECT)
}

/// The superclasses of a class of an export file, by what the file lists: java/lang/Object stands last where the file
/// does not list it above another class.
#[tactic(auto, unfolding(crate::specs::Root::with_root))]
pub(crate) fn with_root(
    alloc: Global,
    name: &[u8],
    listed: &[Bytes],
) -> Result<Row<Bytes>, NoMemory>
    ensures { IfOk result (λ supers. supers ≡ with_root name.now listed.now) }
{
    let mut supers = copies_of(alloc, listed)?;
    if name != OBJECT && !has_root(listed) {
        supers.push(Bytes::copy_of(alloc, OBJECT)?)?;
    }
    Ok(supers)
}
