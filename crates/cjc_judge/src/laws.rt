//! What holds of the first broken rule, whatever the files. Commands whose answer is to be one go by it.

ghost use Rattle.std.specs.Prelude.{◌≡◌, ◌⊎◌, ◌≤◌, ◌^◌, ℕ, List};
ghost use Rattle.cjc_bytes.specs.declared.fault.Refusal.{Refusal};
ghost use Rattle.cjc_bytes.specs.Breaks.{Break};
ghost use Rattle.cjc_list.specs.Listed.{ListTree};
ghost use Rattle.cjc_judge.specs.declared.groups.Group.{Group};
ghost use Rattle.cjc_judge.specs.Rules.{Breach, BreaksFile, IsFirstBroken};
ghost use Rattle.cjc_judge.specs.Spelt.{IsRead};

/// Of the rules that are tested, those that are broken at one place of the order have one refusal; so the first
/// broken rule of a list, its files and groups of rules is one.
pub fn one_refusal()
    ensures at_one_rank { (list : ListTree) (files : List (List ℕ)) (tested : List Group) (a b : Break)
        → Breach list files tested a → Breach list files tested b → a.rank ≡ b.rank → a.refusal ≡ b.refusal }
    ensures first { (list : ListTree) (files : List (List ℕ)) (tested : List Group) (r s : Refusal)
        → IsFirstBroken list files tested r → IsFirstBroken list files tested s → r ≡ s }
{}

/// Rules of single files are of the first hundred, and stand in the list's files; all others are of a later
/// one. So what a command reads besides the files of its list has its place between them.
pub fn files_first()
    ensures files { (list : ListTree) (files : List (List ℕ)) (b : Break) → IsRead list → BreaksFile list.lines files b
        → (b.rank.family ≡ 1) × (b.rank.file ≤ 2 ^ 32) }
    ensures others { (list : ListTree) (files : List (List ℕ)) (tested : List Group) (b : Break)
        → Breach list files tested b → BreaksFile list.lines files b ⊎ (2 ≤ b.rank.family) }
{}
