//! Packages whose components can be read back: those by the modes of their methods that break no rule.
ghost use Rattle.std.specs.Prelude.{ℕ, List};
ghost use Rattle.cjc_verified_proof.specs.Components.Package.{Package};
ghost use Rattle.cjc_verified_proof.specs.List.Listed.{ListTree};
ghost use Rattle.cjc_theorem.specs.LowerJudge.declared.judged.Judged.{Judged};
ghost use Rattle.cjc_theorem.specs.ShapeProof.Written.LaidOut.{IsLaidOut};
ghost use Rattle.cjc_int_theorem.specs.ByModes.{IsConvertedByModes};
ghost use Rattle.cjc_accepted_theorem.specs.Readable.{IsReadable};

use cjc_int_components::methods::methods_by_modes_are_consistent;
use cjc_int_components::packages::methods_by_modes_take_their_words;
use cjc_int_theorem::joined::packages_by_modes_are_of_files;
use cjc_int_theorem::written::{methods_by_modes_are_made, packages_by_modes_are_runnable};
use cjc_theorem::alike::{calls_of_files_have_opcodes, names_of_files_are_there};

/// The components of a package that is laid out by the modes of its methods, and breaks no rule, can be read back.
pub fn packages_by_modes_are_readable()
    ensures { (list : ListTree) (files : List (List ℕ)) (judged : Judged) (p : Package)
        → (laid : IsLaidOut list files judged p)
        → (let q = laid.is_package in IsConvertedByModes list judged.codes q.tables p)
        → (is : IsReadable list files judged p)
        × (let its = is.laid in let q = its.is_package in IsConvertedByModes list judged.codes q.tables p) }
{
    calls_of_files_have_opcodes();
    methods_by_modes_are_consistent();
    methods_by_modes_are_made();
    methods_by_modes_take_their_words();
    names_of_files_are_there();
    packages_by_modes_are_of_files();
    packages_by_modes_are_runnable();
}
