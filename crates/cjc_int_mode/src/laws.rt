//! Laws of modes. Laws alone: nothing here runs.

ghost use Rattle.std.specs.Prelude.{◌≡◌, Bool, List, Option, false};
ghost use Rattle.cjc_flow.specs.ClassFile.Code.{CodeTree};
ghost use Rattle.cjc_flow.specs.ClassFile.declared.tree.ClassTree.{ClassTree};
ghost use Rattle.cjc_flow.specs.ClassFile.declared.tree.MethodTree.{MethodTree};
ghost use Rattle.cjc_flow.specs.Bytecode.declared.method_code.MethodCode.{MethodCode as Instructions};
ghost use Rattle.cjc_flow.specs.World.Files.{Files};
ghost use Rattle.cjc_flow.specs.LowerTypes.declared.state.State.{State};
ghost use Rattle.cjc_flow.specs.LowerTypes.Flow.{Body, body_of};
ghost use Rattle.cjc_flow.specs.LowerTypes.Tables.{IsMethodOf};
ghost use Rattle.cjc_flow.specs.LowerIntervals.Frames.{RangeState};
ghost use Rattle.cjc_flow.specs.LowerIntervals.Tables.{Passes};
ghost use Rattle.cjc_subset.specs.Ints.{code_works_on_int};
ghost use Rattle.cjc_ncode.specs.Written.{Resolution};
ghost use Rattle.cjc_int_mode.specs.declared.modes.Mode.{Mode as Modes};
ghost use Rattle.cjc_int_mode.specs.declared.modes.Mode.TheVariants as modes;
ghost use Rattle.cjc_flow.specs.Tests.Breaches.{NoBreach};
ghost use Rattle.cjc_int_mode.specs.Modes.{IsModeOf, binds, names_int};
ghost use Rattle.cjc_int_mode.specs.Written.{argument_words, local_words, stack_words, written_in_int_mode};

/// A method is in one mode, and in short mode where the list has no line `int`. In short mode a method passes exactly
/// where each operand lies where all of 601 to 609 say.
pub fn methods_have_one_mode()
    ensures one { (ints : Bool) (b : Body) (types : List (Option State)) (ranges : List (Option RangeState))
        (left right : Modes) → IsModeOf ints b types ranges left → IsModeOf ints b types ranges right → left ≡ right }
    ensures without { (b : Body) (types : List (Option State)) (ranges : List (Option RangeState))
        → IsModeOf false b types ranges modes.Short }
    ensures short { (b : Body) (types : List (Option State)) (ranges : List (Option RangeState))
        → Passes b types ranges → NoBreach (binds modes.Short) b types ranges }
    ensures passes { (b : Body) (types : List (Option State)) (ranges : List (Option RangeState))
        → NoBreach (binds modes.Short) b types ranges → Passes b types ranges }
{}

/// A method names int exactly where its code works on int.
pub fn what_names_int_works_on_int()
    ensures { (files : Files) (code : Instructions) (c : ClassTree) (m : MethodTree) (t : CodeTree)
        → IsMethodOf files code c m t → code_works_on_int files code ≡ names_int (body_of c m t code.insns) }
{}

/// The words that 417 speaks of are those of the narrow method that is written in int mode, whatever its names stand
/// for.
pub fn room_is_for_what_is_written()
    ensures arguments { (r : Resolution) (code : CodeTree) (b : Body) (types : List (Option State))
        (ranges : List (Option RangeState)) → (written_in_int_mode r code b types ranges).nargs ≡ argument_words b }
    ensures locals { (r : Resolution) (code : CodeTree) (b : Body) (types : List (Option State))
        (ranges : List (Option RangeState)) → (written_in_int_mode r code b types ranges).max_locals
        ≡ local_words b types }
    ensures stack { (r : Resolution) (code : CodeTree) (b : Body) (types : List (Option State))
        (ranges : List (Option RangeState)) → code.max_stack ≡ b.max_stack
        → (written_in_int_mode r code b types ranges).max_stack ≡ stack_words b }
{}
