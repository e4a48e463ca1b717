//! Sentences that are true, sentences that count as true, and the first of several places. It has no code that runs.

ghost use Rattle.std.specs.Prelude.{◌≡◌, List, [], ◌++◌, None};
ghost use Rattle.cjc_capread.specs.declared.tree.CapTree.{CapTree};
ghost use Rattle.cjc_check_rules.specs.Consistent.{Consistent, Unbroken};
ghost use Rattle.cjc_check_rules.specs.Spots.{ComponentPlace as Place, earlier, first};
ghost use Rattle.cjc_export.specs.declared.tree.ExportTree.{ExportTree};

/// Components are consistent exactly where every sentence counts as true.
pub fn consistent_where_unbroken()
    ensures unbroken { (cap : CapTree) (exports : List ExportTree) → Consistent cap exports → Unbroken cap exports }
    ensures consistent { (cap : CapTree) (exports : List ExportTree) → Unbroken cap exports → Consistent cap exports }
{}

/// There is no first place only where there is none, and that of two lists is the earlier one of their firsts.
pub fn first_places()
    ensures none { (spots : List Place) → first spots ≡ None → spots ≡ [] }
    ensures both { (left right : List Place) → first (left ++ right) ≡ earlier (first left) (first right) }
{}
