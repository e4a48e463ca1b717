//! What instructions, scripts and reports ask of a group, whatever keeps its components.

ghost use Rattle.std.specs.Prelude.{◌≡◌, ◌≤◌, ◌+◌, ℕ, List, map, option_map, option_and_then, slice_get, IfOk, IfSome};
ghost use Rattle.std.specs.Option.{option_copied};
ghost use Rattle.cjc_card_semantics.specs.CapRead.Decoder.Decoded.{IsAtFront, instruction_of};
ghost use Rattle.cjc_card_frame.specs.Meanings.{mode_of};
ghost use Rattle.cjc_card_semantics.specs.Machine.Loaded.{Loaded};
ghost use Rattle.cjc_card_semantics.specs.Machine.Classes.{is_of, fresh, name_of, class_named, fault_class};
ghost use Rattle.cjc_card_semantics.specs.Machine.Operations.{calling, class_at, entry};
ghost use Rattle.cjc_card_semantics.specs.Machine.Methods.{fetch, fetched_as, handler};
ghost use Rattle.cjc_card_semantics.specs.Machine.Calls.{words, reached, called, sent, imported, throwable};
ghost use Rattle.cjc_card_semantics.specs.Machine.ByToken.{shown_fields};
ghost use Rattle.cjc_card_frame.specs.Frame.Frames.{fault_of};
ghost use Rattle.cjc_card_frame.specs.Objects.{class_of, field_of, shape_of, slot_by};
ghost use Rattle.cjc_card_frame.specs.Kinds.{code_of, start_of, callee_of, reached_of, cell_of, cell_name_of, pool_of};
ghost use Rattle.cjc_card_frame.specs.Kinds.{field_by, cell_by, cells_of, IsDecoded};

use crate::heap::{Class, Field, Shape, Slot};
use crate::opcodes::Mode;
use crate::parts::kinds::{Callee, CellName, Code, Reached, Start, StaticCell};
use cjc_card_semantics::bytes::{MemberId, NoMemory, Row};
use cjc_card_semantics::capread::StaticField;
use cjc_card_semantics::capread::decoder::Insn;
use cjc_card_semantics::script::FieldValue;
use cjc_jvm_step::frame::Exception;
use std::alloc::Global;

/// The look-ups. `part` is the number of a package in the group, `index` an operand that is an index into its constant
/// pool. Only what is made anew takes memory.
pub trait LookUps {
    ghost loaded: { Self → Loaded };

    /// Whether a type is of another.
    fn is_of(&self, sub: Shape, sup: Shape) -> bool
        ensures { result ≡ is_of (loaded self.now) (shape_of sub) (shape_of sup) };

    /// What a new object of a class holds; `None` where it is none that objects are made of.
    fn fresh(&self, alloc: Global, class: Class) -> Result<Option<Vec<Slot>>, NoMemory>
        ensures { IfOk result (λ slots. option_map (λ s. map slot_by s.items) slots ≡ fresh (loaded self.now)
            (class_of class)) };

    /// The instruction at an offset, where all of it lies in its method's code.
    fn insn_at(&self, code: Code, at: u32) -> Option<Insn<'_>>
        ensures is { option_map (fetched_as (loaded self.now) code.part (pool_of (loaded self.now) code.part) at)
            (option_map instruction_of result) ≡ fetch (loaded self.now) (code_of code) at }
        ensures within { IfSome result (λ i. at + i.size ≤ code.end) }
        ensures decoded { IfSome result (λ i. IsDecoded (instruction_of i)) }
        ensures front { IfSome result (λ i. (bytes : List ℕ) × IsAtFront i bytes) };

    /// The class that an entry of the pool names.
    fn class_entry(&self, part: u32, index: i32) -> Option<Class>
        ensures { option_map class_of result ≡ class_at (loaded self.now) part (entry (pool_of (loaded self.now) part)
            index) };

    /// The instance field that an entry names.
    fn field_entry(&self, part: u32, index: i32) -> Option<Field>
        ensures { option_map field_of result ≡ option_and_then (field_by (loaded self.now) part)
            (entry (pool_of (loaded self.now) part) index) };

    /// The static cell that an entry names.
    fn cell_entry(&self, part: u32, index: i32) -> Option<StaticCell>
        ensures { option_map cell_of result ≡ option_and_then (cell_by (loaded self.now) part)
            (entry (pool_of (loaded self.now) part) index) };

    /// The method that an entry names, by how it is called.
    fn callee_entry(&self, part: u32, mode: Mode, index: i32) -> Option<Callee<'_>>
        ensures { option_map callee_of result ≡ option_and_then (calling (loaded self.now) part (mode_of mode))
            (entry (pool_of (loaded self.now) part) index) };

    /// The handler that takes an exception of a type at an offset.
    fn handler(&self, code: Code, at: u32, kind: Shape) -> Option<u32>
        ensures { result ≡ handler (loaded self.now) (code_of code) at (shape_of kind) };

    /// How many words a call takes, the receiver counted. No memory is there for a descriptor of 2^32 bytes or more.
    fn words(&self, callee: Callee<'_>) -> Result<Option<u64>, NoMemory>
        ensures { IfOk result (λ count. count ≡ words (loaded self.now) (callee_of callee.entry)) };

    /// What a call reaches on a receiver of a type.
    fn reached<'g>(&'g self, callee: Callee<'g>, receiver: Option<Shape>) -> Reached<'g>
        ensures { reached_of result ≡ reached (loaded self.now) (callee_of callee.entry)
            (option_map shape_of receiver) };

    /// The class of an exception of the machine's own.
    fn fault_class(&self, exception: Exception) -> Option<Class>
        ensures { option_map class_of result ≡ fault_class (loaded self.now) (fault_of exception) };

    /// A class of the group by its name, else of the export files.
    fn class_named(&self, name: &[u8]) -> Option<Class>
        ensures { option_map class_of result ≡ class_named (loaded self.now) name.now };

    /// The imported class of a name that is no interface.
    fn imported(&self, name: &[u8]) -> Option<Class>
        ensures { option_map class_of result ≡ imported (loaded self.now) name.now };

    /// java/lang/Throwable or an imported subclass of it, by its name.
    fn throwable(&self, name: &[u8]) -> Option<Class>
        ensures { option_map class_of result ≡ throwable (loaded self.now) name.now };

    /// The static method that a script calls.
    fn called(&self, id: &MemberId) -> Option<Start>
        ensures { option_map start_of result ≡ called (loaded self.now) id.now };

    /// The method that a script sends to an object of a type.
    fn sent(&self, kind: Shape, id: &MemberId) -> Option<Start>
        ensures { option_map start_of result ≡ sent (loaded self.now) (shape_of kind) id.now };

    /// The name of a class.
    fn name(&self, class: Class) -> &[u8]
        ensures { result.now ≡ name_of (loaded self.now) (class_of class) };

    /// The fields of an object as a report shows them.
    fn shown_fields(
        &self,
        alloc: Global,
        class: Class,
        slots: &[Slot],
    ) -> Result<Row<FieldValue>, NoMemory>
        ensures { IfOk result (λ fields. fields ≡ shown_fields (loaded self.now) (class_of class)
            (map slot_by slots.now)) };

    /// The static field image of a package.
    fn statics(&self, part: u32) -> Option<&StaticField>
        ensures { option_copied result ≡ option_map (λ p. p.statics) (slice_get (loaded self.now).parts part) };

    /// The static cells of a package, in the order of a report.
    fn cells(&self, part: u32) -> &[CellName]
        ensures { map cell_name_of result.now ≡ cells_of (loaded self.now) part };
}
