//! Where components stand in the order of refusals. It has no code that runs.

ghost use Rattle.std.specs.Prelude.{◌≡◌, ◌+◌, ◌<◌, ◌^◌};
ghost use Rattle.cjc_bytes.specs.Breaks.{Among, Break};
ghost use Rattle.cjc_cmd_check.specs.Folder.Breaks.{ArePartsRead, part_breaks};
ghost use Rattle.cjc_cmd_check.specs.declared.folder.folder.Parts.{Parts};

/// Components that break their format stand behind all files of a list, and before a script.
pub fn parts_between()
    ensures { (parts : Parts) (b : Break) → ArePartsRead parts → Among b (part_breaks parts) → (b.rank.family ≡ 1)
        × (2 ^ 64 < b.rank.file) × (b.rank.file < 2 ^ 64 + 256) }
{}
