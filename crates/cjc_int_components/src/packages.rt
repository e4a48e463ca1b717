//! Packages some of whose methods are in int mode, and their components. Laws alone: nothing here runs.
ghost use Rattle.std.specs.Prelude.{◌≡◌, ℕ, List, Some, [], false, map, length};
ghost use Rattle.std.specs.List.{Contains};
ghost use Rattle.cjc_check_proof.specs.LowerCapWrite.Size.{info_of};
ghost use Rattle.cjc_check_proof.specs.CheckRules.Codes.{whole_spots};
ghost use Rattle.cjc_check_proof.specs.CheckRules.Consistent.{Consistent};
ghost use Rattle.cjc_check_proof.specs.CheckRules.Handlers.{handler_spots, stop_spots};
ghost use Rattle.cjc_check_proof.specs.CheckRules.Instructions.{index_spots, jump_spots};
ghost use Rattle.cjc_check_proof.specs.CheckRules.Locations.{location_spots};
ghost use Rattle.cjc_int_narrow.specs.Bytecode.PackageCodes.{all_codes};
ghost use Rattle.cjc_int_narrow.specs.Bytecode.declared.method_code.MethodCode.{MethodCode};
ghost use Rattle.cjc_check_proof.specs.LowerComponents.Components.{components_of, method, tags};
ghost use Rattle.cjc_check_proof.specs.LowerComponents.Names.{names};
ghost use Rattle.cjc_check_proof.specs.LowerComponents.Package.{Package, pool, world};
ghost use Rattle.cjc_check_proof.specs.LowerComponents.Written.{IsPackage};
ghost use Rattle.cjc_check_proof.specs.JvmSemantics.OnePackage.{method_by};
ghost use Rattle.cjc_check_proof.specs.LowerList.Listed.{ListTree};
ghost use Rattle.cjc_check_proof.specs.Types.Tables.{IsMethodOf};
ghost use Rattle.cjc_int_narrow.specs.ClassFile.Code.{CodeTree};
ghost use Rattle.cjc_int_narrow.specs.ClassFile.declared.tree.ClassTree.{ClassTree};
ghost use Rattle.cjc_int_narrow.specs.ClassFile.declared.tree.MethodTree.{MethodTree};
ghost use Rattle.cjc_check_proof.specs.LowerExportFile.declared.tree.ExportTree.{ExportTree};
ghost use Rattle.cjc_int_narrow.specs.World.Files.{Files};
ghost use Rattle.cjc_int_narrow.specs.World.Order.{class_order};
ghost use Rattle.cjc_check_proof.specs.TokenProof.Components.Methods.{HasMethods};
ghost use Rattle.cjc_check_proof.specs.TokenProof.Components.OwnNames.{HaveOwnNames};
ghost use Rattle.cjc_check_proof.specs.TokenProof.Components.Whole.{whole};
ghost use Rattle.cjc_check_proof.specs.TokenProof.WrittenCalls.Standing.{AreMethods, TakeTheirWords};
ghost use Rattle.cjc_check_proof.specs.TokenProof.WrittenSends.Named.{CodeNamesAsWritten};
ghost use Rattle.cjc_int_narrow.specs.LowerNarrow.Rows.Selected.{near_fields};
ghost use Rattle.cjc_int_narrow.specs.LowerIntMode.declared.modes.Mode.TheVariants as modes;
ghost use Rattle.cjc_int_components.specs.Components.{components_by_modes, has_int_mode};
ghost use Rattle.cjc_int_components.specs.Made.{AllAreMadeByMode};
ghost use Rattle.cjc_int_components.specs.Names.{PutsNoConstants};
ghost use Rattle.cjc_int_components.specs.Modes.{AreModes, Tables};
ghost use Rattle.cjc_int_components.specs.Written.{IsPackageByModes};

use crate::methods::methods_by_modes_are_consistent;
use cjc_check_proof::code::{
    handlers_stand_in_code, index_places_are_listed, indices_name_entries, jumps_land_in_code,
    methods_are_cut, stop_bits_end_searches,
};

/// Where no method is in int mode, a package by modes is what a package is without them, and so are its components.
pub fn packages_without_int_mode_are_as_before()
    ensures package { (list : ListTree) (files : Files) (codes : List MethodCode) (t : Tables) (p : Package)
        → has_int_mode t p ≡ false → IsPackageByModes list files codes t p → IsPackage list files codes t.types p }
    ensures by_modes { (list : ListTree) (files : Files) (codes : List MethodCode) (t : Tables) (p : Package)
        → has_int_mode t p ≡ false → IsPackage list files codes t.types p → IsPackageByModes list files codes t p }
    ensures components { (t : Tables) (p : Package) → has_int_mode t p ≡ false
        → components_by_modes t p ≡ components_of p }
{}

/// A package by modes has its methods in the order of Method, abstract where their class files say so, and the code of
/// each takes as many words of arguments as the method's flags and descriptor say.
pub fn methods_by_modes_take_their_words()
    ensures order { (list : ListTree) (files : Files) (codes : List MethodCode) (t : Tables) (p : Package)
        → IsPackageByModes list files codes t p → AreMethods p }
    ensures words { (list : ListTree) (files : Files) (codes : List MethodCode) (t : Tables) (p : Package)
        → IsPackageByModes list files codes t p → TakeTheirWords p }
{}

/// Each instruction of a package by modes names nothing, or what one of its method in the class file names, where no
/// code puts into a static field that is a constant: so what it names is known by token.
pub fn code_by_modes_names_as_written()
    ensures { (list : ListTree) (codes : List MethodCode) (t : Tables) (p : Package)
        → IsPackageByModes list p.files codes t p → PutsNoConstants p → CodeNamesAsWritten p (near_fields (pool p)) }
{}

/// Without the line `int` in the list no method with code is in int mode.
pub fn modes_are_short_without_int()
    ensures { (files : Files) (t : Tables) → AreModes false files t
        → (code : MethodCode) (class : ClassTree) (method : MethodTree) (tree : CodeTree)
        → Contains (all_codes files.classes) code → IsMethodOf files code class method tree
        → t.mode (method_by class method (Some tree)) ≡ modes.Short }
{}

/// Directory has the size of each component, whatever the flags of Header are.
pub fn directory_has_sizes_by_modes()
    ensures { (t : Tables) (p : Package) → let c = components_by_modes t p in let d = c.directory in d.component_sizes
        ≡ map (λ tag. length (info_of c tag)) tags }
{}

/// The components of a package by modes are consistent with export files where those without modes are: no sentence on
/// components reads whether ACC_INT is set.
pub fn components_by_modes_are_consistent()
    ensures { (t : Tables) (p : Package) (exports : List ExportTree) → Consistent (components_of p) exports
        → Consistent (components_by_modes t p) exports }
{}

/// The code of a package by the modes of its methods is consistent, where no two of its classes have one name and its
/// methods stand in their order: the methods fill Method and are whole instructions, jumps land on instructions of
/// their method and no method goes on behind its last one, indices have the tags that opcodes need, handlers are in
/// order and cover instructions of one method, stop bits end searches, and ReferenceLocation lists the places of
/// indices.
pub fn code_by_modes_is_consistent()
    ensures whole { (p : Package) → HaveOwnNames (class_order (world p)) → HasMethods p
        → AllAreMadeByMode (names p) p.files p.methods → whole_spots (whole p) ≡ [] }
    ensures jumps { (p : Package) → HaveOwnNames (class_order (world p)) → HasMethods p
        → AllAreMadeByMode (names p) p.files p.methods → jump_spots (whole p) ≡ [] }
    ensures indices { (p : Package) → HaveOwnNames (class_order (world p)) → HasMethods p
        → AllAreMadeByMode (names p) p.files p.methods → index_spots (whole p) ≡ [] }
    ensures handlers { (p : Package) → HaveOwnNames (class_order (world p)) → HasMethods p
        → AllAreMadeByMode (names p) p.files p.methods → handler_spots (whole p) ≡ [] }
    ensures stops { (p : Package) → AllAreMadeByMode (names p) p.files p.methods → stop_spots (method p) ≡ [] }
    ensures locations { (p : Package) → HaveOwnNames (class_order (world p)) → HasMethods p
        → AllAreMadeByMode (names p) p.files p.methods → location_spots (whole p) ≡ [] }
{
    handlers_stand_in_code();
    index_places_are_listed();
    indices_name_entries();
    jumps_land_in_code();
    methods_are_cut();
    methods_by_modes_are_consistent();
    stop_bits_end_searches();
}
