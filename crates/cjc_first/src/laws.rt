//! Sentences that are true, and sentences that count as true.

ghost use Rattle.std.specs.Prelude.{List};
ghost use Rattle.cjc_capread.specs.declared.tree.CapTree.{CapTree};
ghost use Rattle.cjc_first.specs.Sentences.Consistent.{Consistent, Unbroken};
ghost use Rattle.cjc_export.specs.declared.tree.ExportTree.{ExportTree};

/// Components are consistent exactly where every sentence counts as true.
pub fn consistent_where_unbroken()
    ensures unbroken { (cap : CapTree) (exports : List ExportTree) → Consistent cap exports → Unbroken cap exports }
    ensures consistent { (cap : CapTree) (exports : List ExportTree) → Unbroken cap exports → Consistent cap exports }
{}
