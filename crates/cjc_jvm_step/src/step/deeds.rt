//! What an instruction asks of the machine when the heap has stopped it: to raise an exception, or that nothing
//! applies.

ghost use Rattle.std.specs.Prelude.{◌≡◌};
ghost use Rattle.cjc_jvm_semantics.specs.Machine.{Frame};
ghost use Rattle.cjc_jvm_semantics.specs.Effects.{Store};
ghost use Rattle.cjc_jvm_step.specs.Frame.Deeds.{effect_done, Keeps};
ghost use Rattle.cjc_jvm_step.specs.Heap.Looks.{halted};

use crate::frame::Deed;
use crate::heap::Halt;

/// It raises an exception, or nothing applies.
pub fn deed_of<'a>(halt: Halt) -> Deed<'a>
    ensures { (f : Frame) (store : Store) → (effect_done result f store ≡ halted halt) × Keeps result f f store store }
{
    match halt {
        Halt::Raise(exception) => Deed::Raise(exception),
        Halt::Stick => Deed::Stick,
    }
}
