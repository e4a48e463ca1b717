//! Calls of methods of interfaces, where packages are loaded together: what selection by name gives on an object of a
//! class file has there the token by which the maps of interfaces lead to it. It has laws alone; nothing here runs.
ghost use Rattle.std.specs.Prelude.{◌≡◌, ℕ, List, Some, slice_get};
ghost use Rattle.cjc_components.specs.Bytecode.declared.method_code.MethodCode.{MethodCode};
ghost use Rattle.cjc_components.specs.Package.{Package, world};
ghost use Rattle.cjc_joint_whole.specs.Faces.{FacesDispatch, FacesSelect, InterfacesAreKnown, MapsGoUp, MapsTell};
ghost use Rattle.cjc_joint_whole.specs.Selected.{InterfacesSelectAlike, SelectTogether};
ghost use Rattle.cjc_shape_proof.specs.Written.Checked.{IsOfFiles};
ghost use Rattle.cjc_token_proof.specs.List.Listed.{ListTree};
ghost use Rattle.cjc_vtable.specs.Meant.{HaveOneAccess};

use crate::selected::joint_methods_are_dispatched;
use cjc_components::layout::layouts_are_laid_out;
use cjc_shape_proof::check_proof::flags::methods_keep_flags;
use cjc_vtable::slot_laws::asked_methods_have_tokens;
use cjc_vtable::{dispatch_laws, package_laws, token_laws};

/// What the code of a package calls by invokeinterface is found as a method at which selection may end, whichever of its
/// methods are in int mode; and no method that it knows is private beside public or protected.
pub fn packages_of_files_name_faces()
    ensures faces { (list : ListTree) (codes : List MethodCode) (p : Package) → IsOfFiles list codes p → FacesSelect p }
    ensures access { (list : ListTree) (codes : List MethodCode) (p : Package) → IsOfFiles list codes p
        → HaveOneAccess (world p) }
{
    methods_keep_flags();
    package_laws();
}

/// The card has on objects of a class of a package, for each interface of the group, the map that the package wrote for
/// the class, or else the map of the superclass, whichever package that is of. That of an interface of the class has the
/// tokens that the class has for the methods.
pub fn joint_maps_go_up()
    ensures goes { (packages : List Package) → SelectTogether packages → MapsGoUp packages }
    ensures tells { (packages : List Package) → SelectTogether packages → MapsTell packages }
{
    dispatch_laws();
    token_laws();
}

/// On an object of a class file a method of an interface above it, that a package knows, is dispatched by its place there
/// as by the token that the class has for it, whichever packages these are, where the packages know what interfaces stand
/// above those that their class files list: the map of the nearest class whose package has the interface above it.
pub fn joint_faces_dispatch()
    ensures { (packages : List Package) → SelectTogether packages
        → ((q : ℕ) (p : Package) → slice_get packages q ≡ Some p → HaveOneAccess (world p))
        → InterfacesAreKnown packages → FacesDispatch packages }
{
    asked_methods_have_tokens();
    dispatch_laws();
    joint_maps_go_up();
    joint_methods_are_dispatched();
    token_laws();
}

/// So what packages call of interfaces selects by token, on objects of class files, what it selects by name.
pub fn joint_interface_methods_are_selected()
    ensures { (packages : List Package) → SelectTogether packages
        → ((q : ℕ) (p : Package) → slice_get packages q ≡ Some p → FacesSelect p) → FacesDispatch packages
        → InterfacesSelectAlike packages }
{
    dispatch_laws();
    layouts_are_laid_out();
    token_laws();
}
