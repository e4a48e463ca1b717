//! Narrow code of class files: what its names stand for by the class files and export files of a package, and
//! the look-ups of the machine that runs it. It knows no token and no offset of the components.
ghost use Rattle.std.specs.Prelude.{◌≡◌, Bool, List};
ghost use Rattle.cjc_types.specs.Bytes.declared.fault.MemberId.{MemberId};
ghost use Rattle.cjc_types.specs.Flow.{Body};
ghost use Rattle.cjc_ncode.specs.Written.{Resolution};
ghost use Rattle.cjc_types.specs.World.declared.image.StaticImage.{StaticImage};
ghost use Rattle.cjc_types.specs.World.Files.{Files};
ghost use Rattle.cjc_narrow.specs.Rows.Forms.{FormsOnly};
ghost use Rattle.cjc_narrow.specs.Rows.Names.{FieldsAgreeIn, IsCounted};
ghost use Rattle.cjc_narrow.specs.Written.Rows.{rows_by};

mod constants;
mod hits;
mod names;

pub use constants::constant_named;
pub use names::{resolved_field, resolved_method, special_key, virtual_method};

/// Code names the same keys in the same order, and has handlers of the same classes, whichever of its field
/// instructions have an index of one byte, and so are written as one with an aload_0. So the constant pool does not
/// depend on the forms that its order chooses.
pub fn forms_change_no_key()
    ensures { (r : Resolution) (near : MemberId → Bool) (b : Body) (reached : List Bool)
        → FormsOnly r near b (rows_by reached) }
{}

/// What the machine by name finds for a field that code names is what is written for it: a constant's value, or
/// the field with the class that declares it. The words of an interface's method are those of its parameters,
/// and one for the receiver.
pub fn names_are_found_alike()
    ensures fields { (files : Files) (image : StaticImage) (near : List MemberId) → FieldsAgreeIn files image near }
    ensures words { (m : MemberId) → IsCounted m }
{}
