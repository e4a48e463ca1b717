//! What narrow code of a package is for whoever lays it out: laws over the code that `narrow_codes` promises.
//! Nothing here runs.

ghost use Rattle.std.specs.Prelude.{◌≡◌, List, All, length, map};
ghost use Rattle.cjc_bytes.specs.declared.fault.MemberId.{MemberId};
ghost use Rattle.cjc_components.specs.Bytecode.declared.method_code.MethodCode.{MethodCode};
ghost use Rattle.cjc_pool.specs.List.Listed.{ListTree};
ghost use Rattle.cjc_narrow.specs.Types.declared.table.TypeTable.{TypeTable};
ghost use Rattle.cjc_world.specs.declared.found.Found.{Found};
ghost use Rattle.cjc_world.specs.Classes.{all_classes};
ghost use Rattle.cjc_world.specs.Files.{Files};
ghost use Rattle.cjc_world.specs.Order.{method_order};
ghost use Rattle.cjc_pool.specs.NCode.declared.narrow.NMethod.{NMethod};
ghost use Rattle.cjc_pool.specs.NCode.PoolOrder.{pool_order};
ghost use Rattle.cjc_narrow.specs.Rows.Selected.{near_fields};
ghost use Rattle.cjc_pool.specs.Layout.Layouts.{IsWhole};
ghost use Rattle.cjc_components.specs.Package.{Package, codes};
ghost use Rattle.cjc_int_mode.specs.declared.modes.Mode.{Mode};
ghost use Rattle.cjc_int_package.specs.Modes.{Tables};
ghost use Rattle.cjc_int_package.specs.Written.{IsPackageByModes, code_by_mode_at};
ghost use Rattle.cjc_methods.specs.Ready.{AreReady, AreTold, IsOwn};

/// The narrow code of each member of the package, by its mode, can be laid out, whichever field instructions have an
/// index of one byte.
pub fn methods_can_be_laid_out()
    ensures { (files : Files) (codes : List MethodCode) (types : List TypeTable) (modes : List Mode)
        → AreReady files codes types → length modes ≡ length codes → (t : Tables) → AreTold files codes types modes t
        → (near : List MemberId) (members : List Found) → All (IsOwn files) members
        → All IsWhole (map (code_by_mode_at files near t) members) }
{}

/// A package has the narrow code that is selected by its own pool, and no other.
pub fn codes_are_by_their_own_pool()
    ensures { (list : ListTree) (files : Files) (insns : List MethodCode) (t : Tables) (p : Package)
        → IsPackageByModes list files insns t p
        → (narrow : List NMethod) → narrow ≡ map (code_by_mode_at files (near_fields (pool_order narrow)) t)
        (method_order (all_classes files)) → codes p ≡ narrow }
{}
