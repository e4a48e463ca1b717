//! Methods in int mode, by their closed tables.

ghost use Rattle.std.specs.Prelude.{◌≡◌, ℕ, ℤ, true, Option, Some, List};
ghost use Rattle.cjc_bytes.specs.declared.fault.MemberId.{MemberId};
ghost use Rattle.cjc_code.specs.ClassFile.Code.{CodeTree};
ghost use Rattle.cjc_code.specs.ClassFile.declared.tree.ClassTree.{ClassTree};
ghost use Rattle.cjc_code.specs.ClassFile.declared.tree.MethodTree.{MethodTree};
ghost use Rattle.cjc_code.specs.declared.method_code.MethodCode.{MethodCode};
ghost use Rattle.cjc_script.specs.Sorts.{Sort};
ghost use Rattle.cjc_world.specs.Classes.{Class, all_classes};
ghost use Rattle.cjc_world.specs.Files.{Files};
ghost use Rattle.cjc_types.specs.Flow.{body_of};
ghost use Rattle.cjc_types.specs.Tables.{Breach, IsLeastTable, IsMethodOf};
ghost use Rattle.cjc_types.specs.declared.state.State.{State};
ghost use Rattle.cjc_intervals.specs.Frames.{RangeState};
ghost use Rattle.cjc_intervals.specs.Tables.{IsLeastRanges};
ghost use Rattle.cjc_flow.specs.Tests.Breaches.{NoBreach};
ghost use Rattle.cjc_ncode.specs.declared.narrow.NMethod.{NMethod};
ghost use Rattle.cjc_ncode.specs.ByLabel.{Named};
ghost use Rattle.cjc_ncode.specs.Written.{Resolution};
ghost use Rattle.cjc_jvm_semantics.specs.Linked.{Method, Linked};
ghost use Rattle.cjc_jvm_semantics.specs.OnePackage.{method_by};
ghost use Rattle.cjc_narrow_proof.specs.Selection.Tables.{Table};
ghost use Rattle.cjc_narrow_proof.specs.Tables.Analysis.{Found, IsDecoded, TypesAreTold};
ghost use Rattle.cjc_narrow_proof.specs.Tables.Arrays.{ClassesAreNamed};
ghost use Rattle.cjc_int_mode.specs.declared.modes.Mode.TheVariants as modes;
ghost use Rattle.cjc_int_mode.specs.Modes.{binds};
ghost use Rattle.cjc_int_mode.specs.Room.{IsRoom};
ghost use Rattle.cjc_int_mode.specs.Written.{written_in_int_mode};
ghost use Rattle.cjc_int_runs.specs.IntFrames.{IntBody, StandsByMode};
ghost use Rattle.cjc_int_runs.specs.Typed.{IsWritten, IntMethodIsTyped, TellsClasses};
ghost use Rattle.cjc_int_alike.specs.Calls.{AreIntSupported, GivesResult, MayThrowThrowables};
ghost use Rattle.cjc_int_alike.specs.Method.{IsIntRead, IsIntSound, IsIntWhole, found_of, int_body, int_reached};

/// What is written in int mode for a method that was decoded, by any tables, is written for the instructions that its
/// types reach, in the order of their offsets, with what the tables say before each.
pub fn int_methods_are_written()
    ensures { (l : Named) (r : Resolution) (f : Found) (m : Method) (tree : CodeTree) → IsIntRead f m
        → IsDecoded f.body → tree.catches ≡ (let b = f.body in b.catches)
        → tree.max_stack ≡ (let b = f.body in b.max_stack)
        → IsWritten (int_body l r f (written_in_int_mode r tree f.body f.types f.ranges)) m (int_reached f) }
{}

/// In a method in int mode whose type table and range table are closed, no instruction of which breaks a rule of types,
/// no operand one of the rules that bind int mode, and for which there is room, each reached instruction is typed,
/// where it is supported: constants, loads, stores and increases of locals, arithmetic, the stack's instructions,
/// conversions, jumps and switches; elements of arrays, with the guard of an index or without; fields, static fields,
/// new objects and arrays, and types; returns and athrow; and calls, where both sides reach the same. Classes of
/// exceptions are told alike there.
pub fn int_methods_are_typed()
    ensures typed { (by : Linked) (l : Named) (tb : Table) (bodies : Method → Option IntBody)
        (results : Method → Option Sort) (w : List Class) (r : Resolution) (f : Found) (code : NMethod) (m : Method)
        → IsIntWhole by l tb.may_throw w r f m → TypesAreTold w l → ClassesAreNamed w l
        → MayThrowThrowables by l (StandsByMode l tb bodies) results tb.narrowed tb.may_throw r m
        → GivesResult results f m
        → AreIntSupported by l (StandsByMode l tb bodies) results tb.narrowed tb.may_throw r m f
        → IntMethodIsTyped by l (StandsByMode l tb bodies) results tb.narrowed tb.may_throw (int_body l r f code) m }
    ensures tells { (by : Linked) (l : Named) (tb : Table) (bodies : Method → Option IntBody)
        (results : Method → Option Sort) (w : List Class) (r : Resolution) (f : Found) (code : NMethod) (m : Method)
        → IsIntWhole by l tb.may_throw w r f m
        → TellsClasses by l (StandsByMode l tb bodies) results tb.narrowed tb.may_throw (int_body l r f code) m }
{}

/// The least tables of a method of a package in int mode are sound, where no instruction that its types reach breaks
/// one of 501 to 503, no operand one of 605 and 607 to 609, and there is room (417): both are closed. Its body is one
/// that was decoded, and the machine by name has it as it was read.
pub fn least_tables_are_sound()
    ensures sound { (files : Files) (code : MethodCode) (class : ClassTree) (method : MethodTree) (tree : CodeTree)
        → IsMethodOf files code class method tree → (types : List (Option State)) (ranges : List (Option RangeState))
        (constant : MemberId → Option ℤ) → IsLeastTable (body_of class method tree code.insns) types
        → ((place rule : ℕ) → Breach (all_classes files) (body_of class method tree code.insns) types place rule → ⊥)
        → IsLeastRanges (body_of class method tree code.insns) constant types ranges
        → NoBreach (binds modes.Int) (body_of class method tree code.insns) types ranges
        → IsRoom (body_of class method tree code.insns) types modes.Int true
        → IsIntSound (all_classes files) constant (found_of class method tree code.insns types ranges) }
    ensures read { (files : Files) (code : MethodCode) (class : ClassTree) (method : MethodTree) (tree : CodeTree)
        → IsMethodOf files code class method tree → (types : List (Option State)) (ranges : List (Option RangeState))
        → IsIntRead (found_of class method tree code.insns types ranges) (method_by class method (Some tree)) }
    ensures decoded { (files : Files) (code : MethodCode) (class : ClassTree) (method : MethodTree) (tree : CodeTree)
        → IsMethodOf files code class method tree → IsDecoded (body_of class method tree code.insns) }
{}
