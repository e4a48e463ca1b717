//! The limits of what is written for packages some of whose methods are in int mode. Laws alone: nothing here runs.
ghost use Rattle.std.specs.Prelude.{◌≡◌, List, Option, Some, [], not, true, false};
ghost use Rattle.std.specs.List.{Contains};
ghost use Rattle.cjc_int_narrow.specs.Bytecode.PackageCodes.{all_codes};
ghost use Rattle.cjc_int_narrow.specs.Bytecode.declared.method_code.MethodCode.{MethodCode};
ghost use Rattle.cjc_int_narrow.specs.ClassFile.Code.{CodeTree};
ghost use Rattle.cjc_int_narrow.specs.ClassFile.declared.tree.ClassTree.{ClassTree};
ghost use Rattle.cjc_int_narrow.specs.ClassFile.declared.tree.MethodTree.{MethodTree};
ghost use Rattle.cjc_int_narrow.specs.World.Classes.{Member};
ghost use Rattle.cjc_int_narrow.specs.World.Files.{Files};
ghost use Rattle.cjc_int_narrow.specs.LowerSubset.Ints.{code_works_on_int};
ghost use Rattle.cjc_check_proof.specs.Tokens.Members.{is_initialiser};
ghost use Rattle.cjc_check_proof.specs.Types.Flow.{Body, body_of};
ghost use Rattle.cjc_check_proof.specs.Types.Tables.{IsMethodOf};
ghost use Rattle.cjc_check_proof.specs.Types.declared.state.State.{State};
ghost use Rattle.cjc_check_proof.specs.JvmSemantics.OnePackage.{method_by};
ghost use Rattle.cjc_check_proof.specs.LowerComponents.Limits.{has_many_words, limit_breaks, of_methods};
ghost use Rattle.cjc_check_proof.specs.LowerComponents.Limits.{word_breaks};
ghost use Rattle.cjc_check_proof.specs.LowerComponents.Package.{Package};
ghost use Rattle.cjc_check_proof.specs.NarrowProof.Selected.Keeps.{FindsItself};
ghost use Rattle.cjc_int_narrow.specs.LowerIntMode.Room.{IsRoom};
ghost use Rattle.cjc_int_narrow.specs.LowerIntMode.declared.modes.Mode.TheVariants as modes;
ghost use Rattle.cjc_int_components.specs.Components.{has_int_mode};
ghost use Rattle.cjc_int_components.specs.Limits.{lacks_int_room, limit_breaks_by_modes, word_breaks_by_modes};
ghost use Rattle.cjc_int_components.specs.Modes.{AreModes, Tables};

/// Rule 417 by modes tells exactly whether there is room for a method: in int mode, for its arguments, locals, scratch
/// pairs and operand stack, where a look-up of its own name finds it; outside int mode, for its arguments.
pub fn room_is_told_by_modes()
    ensures in_int_mode { (files : Files) (code : MethodCode) (class : ClassTree) (method : MethodTree)
        (tree : CodeTree) → IsMethodOf files code class method tree → FindsItself files class method → (t : Tables)
        → t.mode (method_by class method (Some tree)) ≡ modes.Int
        → IsRoom (body_of class method tree code.insns) (t.types (method_by class method (Some tree))) modes.Int
        (not (lacks_int_room t files (Some (method_by class method (Some tree))))) }
    ensures outside { (b : Body) (types : List (Option State)) (m : Member) → m.flags ≡ b.flags → m.desc ≡ b.desc
        → IsRoom b types modes.Short (not (has_many_words m)) }
{}

/// Where no method is in int mode, 417 is broken just where it is without modes, and so are all limits.
pub fn limits_without_int_mode_are_as_before()
    ensures words { (t : Tables) (p : Package) → has_int_mode t p ≡ false
        → of_methods p (word_breaks_by_modes t p) ≡ of_methods p (word_breaks p) }
    ensures limits { (t : Tables) (p : Package) → has_int_mode t p ≡ false
        → limit_breaks_by_modes t p ≡ limit_breaks p }
{}

/// Where the list has the line `int`, a method with code that is not in int mode does not work on int, unless it is an
/// initialiser.
pub fn what_works_on_int_is_in_int_mode()
    ensures { (files : Files) (t : Tables) → AreModes true files t → (code : MethodCode) (class : ClassTree)
        (method : MethodTree) (tree : CodeTree) → Contains (all_codes files.classes) code
        → IsMethodOf files code class method tree → is_initialiser method.name ≡ false
        → t.mode (method_by class method (Some tree)) ≡ modes.Short → code_works_on_int files code ≡ false }
{}
