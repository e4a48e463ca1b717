//! Slots that methods of a class take from its superclass: those of the tokens that export files list for them.
//! Where these don't contradict one another each method has its slot already. Called by `line`.

ghost use Rattle.std.specs.Prelude.{◌≡◌, ◌+◌, ◌<◌, ◌^◌, Bool, Option, true, false, length, map, slice_get};
ghost use Rattle.cjc_world.specs.declared.found.Found.{Found as Method};
ghost use Rattle.cjc_world.specs.Classes.{declared, method_of_class};
ghost use Rattle.cjc_tokens.specs.Members.{Signature, has, signatures};
ghost use Rattle.cjc_tokens.specs.Slots.{is_of_package, own, with_taken};
ghost use Rattle.cjc_tokens.specs.Working.{AreMeant, AreOwn, is_of_kind, methods_in, signature_in, signs, Taken};
ghost use Rattle.cjc_tokens.specs.Working.{token_under};

use crate::indexed::Places;
use crate::slot::{Slot, is_of_kind, own};
use crate::told::Told;
use cjc_world::classfile::ClassTree;

/// Whether a class of the package has the method of a slot.
fn is_of_package(row: &[Option<Slot<'_>>], token: usize) -> bool
    ensures { result ≡ is_of_package (slice_get (methods_in row.now) token) }
{
    match row.get(token) {
        Some(Some(slot)) => match slot.method {
            Some(found) => !found.imported,
            None => false,
        },
        _ => false,
    }
}

/// Writes a slot at a token that is listed for it, unless a class of the package has the superclass's method there.
fn take<'w>(
    row: &mut Vec<Option<Slot<'w>>>,
    above: &[Option<Slot<'_>>],
    listed: Option<u8>,
    slot: Slot<'w>,
)
    ensures slots { signs row.new.items ≡ with_taken listed (methods_in above.now) (signature_in slot.entry)
        (signs row.old.items) }
    ensures methods { (implements : Signature → Option Method) → slot.entry.method
        ≡ implements (signature_in slot.entry) → AreMeant implements row.old.items
        → AreMeant implements row.new.items }
{
    if let Some(token) = listed {
        let token = token as usize;
        if token < row.len() && !is_of_package(above, token) {
            row[token] = Some(slot);
        }
    }
}

/// Each public or protected virtual method of a class takes the slot of the token that is listed for it, unless a
/// class of the package has the superclass's method there.
pub(crate) fn take_slots<'w>(
    row: &mut Vec<Option<Slot<'w>>>,
    above: &[Option<Slot<'_>>],
    told: &Told<'_>,
    class: &'w ClassTree<'_>,
    places: &Places<'_>,
    number: u32,
)
    requires few { length class.now.fields + length class.now.methods < 2 ^ 32 }
    requires places { AreOwn false places.now (map method_of_class class.now.methods) }
    ensures { (implements : Signature → Option Method)
        → ((s : Signature) → has (signatures (is_of_kind false) (declared number class.now).methods) s ≡ true
        → own (is_of_kind false) s (declared number class.now) ≡ implements s)
        → Taken (token_under told.now) (methods_in above.now)
        (signatures (is_of_kind false) (declared number class.now).methods) implements row.old.items row.new.items }
{
    for method in class.methods.items() {
        let name = method.name.items();
        let desc = method.desc.items();
        if is_of_kind(false, method.flags, name) {
            let listed = told.token(name, desc);
            let found = own(class, places, number, false, name, desc);
            take(
                row,
                above,
                listed,
                Slot {
                    name,
                    desc,
                    method: found,
                },
            );
        }
    }
}
