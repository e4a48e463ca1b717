//! What a package that breaks no rule keeps, and that calls of it by token are selection by name. Nothing here runs.

ghost use Rattle.std.specs.Prelude.{◌≡◌, ℕ, List, []};
ghost use Rattle.cjc_world.specs.Bytes.declared.settings.Settings.{Settings as Given};
ghost use Rattle.cjc_subset.specs.LowerBytecode.declared.method_code.MethodCode.{MethodCode};
ghost use Rattle.cjc_world.specs.Classes.{all_classes};
ghost use Rattle.cjc_world.specs.Files.{Files};
ghost use Rattle.cjc_world.specs.Rules.{breaks};
ghost use Rattle.cjc_subset.specs.Checks.{check_breaks};
ghost use Rattle.cjc_vtable.specs.Kept.{BreaksNone, CallsAgree, IsKept, Keeps};

use crate::laws::{dispatch_laws, token_laws};
use cjc_world::lookup_laws;

/// A package of read files that breaks none of the rules 201 to 204, 207, 208, 304, 305 and 307, and whose export
/// files don't contradict one another, keeps what dispatch rests on. So on an object of each of its classes dispatch
/// by class tables and interface maps is selection by name, and a method keeps its token.
pub fn package_laws()
    ensures unbroken { (list : List ℕ) (files : Files) (codes : List MethodCode) (settings : Given)
        → breaks list files ≡ [] → check_breaks list files codes settings ≡ [] → BreaksNone list files codes settings }
    ensures keeps { (list : List ℕ) (files : Files) (codes : List MethodCode) (settings : Given)
        → IsKept list files codes settings → Keeps (all_classes files) }
    ensures calls { (list : List ℕ) (files : Files) (codes : List MethodCode) (settings : Given)
        → IsKept list files codes settings → CallsAgree (all_classes files) }
{
    lookup_laws();
    dispatch_laws();
    token_laws();
}
