//! The token of a member that a look-up tells by its place, behind fields and own methods where the class got
//! it. Called by `hidden` and `shown`.

ghost use Rattle.std.specs.Prelude.{◌≡◌, ◌+◌, Some, false, length, IfOk};
ghost use Rattle.cjc_bytes.specs.AccessFlags.{is_interface};
ghost use Rattle.cjc_tokens.specs.Tokens.{token_of_member};

use cjc_bytes::{NoMemory, is_interface};
use cjc_tokens::Tokens;
use cjc_world::Found;
use cjc_world::classfile::ClassTree;

/// How many members of a class one list has, of which a class has no more than 32 bits count.
const MOST: usize = 0x3FFF_FFFF;

/// The place of a member behind fields and methods.
fn behind(fields: usize, methods: usize, place: usize) -> Result<u32, NoMemory>
    ensures { IfOk result (λ n. n ≡ fields + methods + place) }
{
    if fields > MOST || methods > MOST || place > MOST {
        return Err(NoMemory);
    }
    Ok((fields + methods + place) as u32)
}

/// The token of the member of a class of the package that stands behind its fields and so many methods; no
/// interface has slots.
pub(crate) fn own_token(
    tokens: &Tokens,
    number: u32,
    class: &ClassTree<'_>,
    methods: usize,
    place: usize,
) -> Result<u8, NoMemory>
    ensures plain { IfOk result (λ t. is_interface class.now.flags ≡ false) }
    ensures token { IfOk result (λ t. token_of_member tokens.now (record {
      imported = false;
      class = number;
      member = length class.now.fields + methods + place;
    }) ≡ Some t) }
{
    if is_interface(class.flags) {
        return Err(NoMemory);
    }
    let found = Found {
        imported: false,
        class: number,
        member: behind(class.fields.items().len(), methods, place)?,
    };
    match tokens.member_token(found) {
        Some(token) => Ok(token),
        None => Err(NoMemory),
    }
}
