//! What a new version that breaks none of 741 to 745 keeps. `compat` and the command's promise rest on it.

ghost use Rattle.std.specs.Prelude.{◌≡◌, ℕ, List, []};
ghost use Rattle.cjc_export.specs.Bytes.Breaks.{Among, Break};
ghost use Rattle.cjc_compat.specs.References.{KeepsReferences};
ghost use Rattle.cjc_compat.specs.Rules.{breaks};
ghost use Rattle.cjc_export.specs.declared.tree.ExportTree.{ExportTree};

/// Where no rule is broken, each reference that means something in the old version means the same in the new one, and
/// each super that the old version lists is listed.
pub fn compatible()
    ensures { (file : List ℕ) (old new : ExportTree) → breaks file old new ≡ [] → KeepsReferences old new }
{}

/// Where a rule is broken tells what is told of it: breaks of one rank have one refusal.
pub fn one_refusal()
    ensures { (file : List ℕ) (old new : ExportTree) (a b : Break) → Among a (breaks file old new)
        → Among b (breaks file old new) → a.rank ≡ b.rank → a.refusal ≡ b.refusal }
{}
