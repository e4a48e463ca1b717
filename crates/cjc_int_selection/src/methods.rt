//! Which methods of a package can be selected in int mode. Laws alone: nothing here runs.

ghost use Rattle.std.specs.Prelude.{ℕ, List, Option, true};
ghost use Rattle.cjc_int_narrow.specs.Bytecode.declared.method_code.MethodCode.{MethodCode};
ghost use Rattle.cjc_int_narrow.specs.ClassFile.Code.{CodeTree};
ghost use Rattle.cjc_int_narrow.specs.ClassFile.declared.tree.ClassTree.{ClassTree};
ghost use Rattle.cjc_int_narrow.specs.ClassFile.declared.tree.MethodTree.{MethodTree};
ghost use Rattle.cjc_int_narrow.specs.World.Classes.{all_classes};
ghost use Rattle.cjc_int_narrow.specs.World.Files.{Files};
ghost use Rattle.cjc_types.specs.Flow.{body_of};
ghost use Rattle.cjc_types.specs.Tables.{Breach, IsLeastTable, IsMethodOf};
ghost use Rattle.cjc_types.specs.declared.state.State.{State};
ghost use Rattle.cjc_narrow_proof.specs.Selected.Keeps.{IsSpelt};
ghost use Rattle.cjc_int_narrow.specs.LowerIntMode.Room.{IsRoom};
ghost use Rattle.cjc_int_narrow.specs.LowerIntMode.declared.modes.Mode.TheVariants as modes;
ghost use Rattle.cjc_int_narrow.specs.Select.{IsSelectable};

/// A method of a package can be selected in int mode, where its file spells its class, no instruction that its least
/// table reaches breaks one of 501 to 503, and there is room for what is written (417).
pub fn int_methods_are_selectable()
    ensures { (files : Files) (code : MethodCode) (class : ClassTree) (method : MethodTree) (tree : CodeTree)
        → IsMethodOf files code class method tree → (bytes : List ℕ) → IsSpelt class bytes
        → (rows : List (Option State)) → IsLeastTable (body_of class method tree code.insns) rows
        → ((place rule : ℕ) → Breach (all_classes files) (body_of class method tree code.insns) rows place rule → ⊥)
        → IsRoom (body_of class method tree code.insns) rows modes.Int true
        → IsSelectable (body_of class method tree code.insns) rows }
{}
