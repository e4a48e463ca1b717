//! The types of Descriptor, found by their offsets.

ghost use Rattle.std.specs.Prelude.{◌≡◌, ◌+◌, ◌*◌, ◌==◌, length, option_map, option_and_then, position, slice_get};
ghost use Rattle.cjc_capread.specs.declared.tree.TypeDescriptor.{TypeDescriptor as Described};
ghost use Rattle.cjc_verify.specs.Described.{are_nibbles};
ghost use Rattle.cjc_verify.specs.Types.{AreTypes};
ghost use Rattle.cjc_verify.specs.WantedDescriptor.{says, is_type};

use crate::described::wanted::WantedType;
use cjc_bytes::Bytes;
use cjc_capread::{Descriptor, FieldType, TypeDescriptor};

/// Descriptor, and where its types begin, in bytes from the number of pool entries on.
#[derive(Drop)]
pub(crate) struct Types<'a> {
    pub(crate) descriptor: &'a Descriptor,
    pub(crate) starts: &'a [u64],
}

/// The first of these that begins at an offset.
fn place_of(starts: &[u64], offset: u64) -> Option<usize>
    ensures { result ≡ position (λ n. n == offset) starts.now }
{
    starts.iter().position(|start| *start == offset)
}

/// Whether these are the nibbles that are wanted.
fn are_nibbles(nibbles: &[u8], wanted: &Option<Bytes>) -> bool
    ensures { result ≡ are_nibbles (Some nibbles.now) wanted.now }
{
    match wanted {
        Some(wanted) => nibbles == wanted.items(),
        None => false,
    }
}

/// Whether the type at a place is the one that is wanted.
fn says_at(types: &[TypeDescriptor], place: Option<usize>, wanted: &Option<Bytes>) -> bool
    ensures { result ≡ are_nibbles (option_map (λ (t : Described). t.nibbles) (option_and_then (slice_get types.now)
        place))
        wanted.now }
{
    match place {
        Some(place) => match types.get(place) {
            Some(found) => are_nibbles(found.nibbles.items(), wanted),
            None => false,
        },
        None => false,
    }
}

impl Types<'_> {
    /// Whether the type at an offset is the one that is wanted.
    pub(crate) fn says(&self, offset: u64, wanted: &Option<Bytes>) -> bool
        requires { AreTypes self.now }
        ensures { result ≡ says self.now.descriptor.now offset wanted.now }
    {
        let types = self.descriptor.types.items();
        let place = place_of(self.starts, offset);
        says_at(types, place, wanted)
    }

    /// Whether a field's type is the one that is wanted.
    pub(crate) fn is_type(&self, own: FieldType, wanted: &WantedType) -> bool
        requires { AreTypes self.now }
        ensures { result ≡ is_type self.now.descriptor.now own wanted.now }
    {
        match (own, wanted) {
            (FieldType::Boolean, WantedType::Boolean) => true,
            (FieldType::Byte, WantedType::Byte) => true,
            (FieldType::Short, WantedType::Short) => true,
            (FieldType::Int, WantedType::Int) => true,
            (FieldType::Described(offset), WantedType::Described(nibbles)) => {
                self.says(offset, nibbles)
            }
            _ => false,
        }
    }
}
