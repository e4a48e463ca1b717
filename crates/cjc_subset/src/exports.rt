//! Rules 301 and 304 of the classes that export files list: a name that no class has, and methods that no class lists
//! so. Called by checking.rt. Knows no class of the package.

ghost use Rattle.std.specs.Prelude.{◌≡◌, ◌<◌, ◌+◌, ℕ, length, option_map};
ghost use Rattle.std.specs.List.{list_all};
ghost use Rattle.cjc_bytes.specs.Breaks.{IsFirstOf, class_spot, each, member_spot};
ghost use Rattle.cjc_bytes.specs.Descriptor.{is_name_byte};
ghost use Rattle.cjc_bytes.specs.Order.{FilePlace};
ghost use Rattle.cjc_bytes.specs.Refused.{method_text};
ghost use Rattle.cjc_bytes.specs.Told.{break_of, file_place_of, spot_of};
ghost use Rattle.cjc_subset.specs.Exports.{export_breaks, export_file_of, is_class_name, is_name, is_of_objects};
ghost use Rattle.cjc_subset.specs.Exports.{is_unfit_listed, listed_breaks, listed_class_breaks, listed_method_breaks};

use crate::members::{is_constructor, is_initialiser};
use crate::overriding::is_open;
use cjc_bytes::{
    Break, FileKey, FileLine, FileRef, Part, PlaceRef, RulePlace, broken, first, is_abstract,
    is_interface, is_private, is_static,
};
use cjc_world::World;
use cjc_world::export_file::{ExportClass, ExportMethod, ExportTree};

const OBJECT: &[u8] = b"java/lang/Object";

// ---- names

/// Whether a byte may stand in a name: not `.`, `;`, `[` or `/`.
fn is_name_byte(byte: u8) -> bool
    ensures { result ≡ is_name_byte byte }
{
    !matches!(byte, b'.' | b';' | b'[' | b'/')
}

fn has_name_bytes(part: &[u8]) -> bool
    ensures { result ≡ list_all is_name_byte part.now }
{
    part.iter().all(|byte| is_name_byte(*byte))
}

/// Whether these are one or more of them.
fn is_name(part: &[u8]) -> bool
    ensures { result ≡ is_name part.now }
{
    match part {
        [] => false,
        _ => has_name_bytes(part),
    }
}

/// Whether these are such names, joined by `/`: the name of a class.
fn is_class_name(name: &[u8]) -> bool
    ensures { result ≡ is_class_name name.now }
{
    name.split(|byte| *byte == b'/').all(|part| is_name(part))
}

// ---- methods

/// Whether a method of this name of a class is called on objects of other classes: one of an interface, or one of
/// java/lang/Object that is no initialiser.
fn is_of_objects(class: &ExportClass, name: &[u8]) -> bool
    ensures { result ≡ is_of_objects class.now name.now }
{
    is_interface(class.flags) || class.name.items() == OBJECT && !is_initialiser(name)
}

/// Whether no class lists a method of these flags and this name.
fn is_unfit_listed(of_objects: bool, flags: u16, name: &[u8]) -> bool
    ensures { result ≡ is_unfit_listed of_objects flags name.now }
{
    is_private(flags) && is_open(flags)
        || is_initialiser(name) && !is_static(flags)
        || of_objects && (is_private(flags) || is_static(flags))
        || is_abstract(flags)
            && (is_static(flags)
                || is_private(flags)
                || is_constructor(name)
                || is_initialiser(name))
}

// ---- places

/// The export file of this number. Where no line is its, the file stands behind all lines and has no name.
fn export_file_of(lines: &[FileLine], number: usize) -> FileRef<'_>
    ensures { file_place_of result ≡ export_file_of lines.now number }
{
    let mut left = number;
    for (index, line) in lines.iter().enumerate() {
        if !line.class_file {
            if left == 0 {
                return FileRef {
                    key: FileKey::Line(index),
                    name: line.name.items(),
                };
            }
            left -= 1;
        }
    }
    FileRef {
        key: FileKey::Line(lines.len()),
        name: &[],
    }
}

/// The method at this place of a class, whose place this is.
fn listed_spot<'w>(
    spot: RulePlace<'w>,
    class: &'w ExportClass,
    place: usize,
    method: &'w ExportMethod,
) -> RulePlace<'w>
    requires { place < length class.now.methods }
    ensures { (f : FilePlace) (n : ℕ) → spot_of spot.entry ≡ class_spot f n class.now.name
        → spot_of result ≡ member_spot f n class.now.name (length class.now.fields + place + 1)
        (method_text method.now.name method.now.desc) 0 }
{
    RulePlace {
        member: class.fields.items().len() as u128 + place as u128 + 1,
        place: PlaceRef {
            part: Part::Method(method.name.items(), method.desc.items()),
            offset: 0,
            ..spot.place
        },
        ..spot
    }
}

// ---- what is broken

/// The first rule that the method at a place of a class breaks.
fn listed_method_break<'w>(
    class: &'w ExportClass,
    place: usize,
    method: &'w ExportMethod,
    spot: RulePlace<'w>,
) -> Option<Break<'w>>
    requires { place < length class.now.methods }
    ensures { (f : FilePlace) (n : ℕ) → spot_of spot.entry ≡ class_spot f n class.now.name
        → IsFirstOf (listed_method_breaks f n class.now place method.now) (option_map break_of result) }
{
    let spot = listed_spot(spot, class, place, method);
    let name = method.name.items();
    let unfit = is_unfit_listed(is_of_objects(class, name), method.flags, name);
    broken(unfit, spot, 304)
}

/// The first rule that the methods of a class break.
fn listed_methods_break<'w>(class: &'w ExportClass, spot: RulePlace<'w>) -> Option<Break<'w>>
    ensures { (f : FilePlace) (n : ℕ) → spot_of spot.entry ≡ class_spot f n class.now.name
        → IsFirstOf (each (λ i m. listed_method_breaks f n class.now i m) class.now.methods)
        (option_map break_of result) }
{
    let mut least = None;
    let methods = class.methods.items();
    for (place, method) in methods.iter().enumerate() {
        least = first(least, listed_method_break(class, place, method, spot));
    }
    least
}

/// The first rule that a class breaks, whose place this is.
fn listed_class_break<'w>(class: &'w ExportClass, spot: RulePlace<'w>) -> Option<Break<'w>>
    ensures { (f : FilePlace) (n : ℕ) → spot_of spot.entry ≡ class_spot f n class.now.name
        → IsFirstOf (listed_class_breaks f n class.now) (option_map break_of result) }
{
    let unnamed = broken(!is_class_name(class.name.items()), spot, 301);
    first(unnamed, listed_methods_break(class, spot))
}

/// The first rule that the classes of an export file break.
fn listed_break<'w>(file: FileRef<'w>, classes: &'w [ExportClass]) -> Option<Break<'w>>
    ensures { IsFirstOf (each (λ i c. listed_class_breaks (file_place_of file.entry) (i + 1) c) classes.now)
        (option_map break_of result) }
{
    let mut least = None;
    for (place, class) in classes.iter().enumerate() {
        let spot = RulePlace::of_class(file, place + 1, class.name.items());
        least = first(least, listed_class_break(class, spot));
    }
    least
}

/// The first rule that the classes of these export files break.
fn exports_break_of<'w>(lines: &'w [FileLine], exports: &'w [ExportTree]) -> Option<Break<'w>>
    ensures { IsFirstOf (each (λ e t. listed_breaks (export_file_of lines.now e) t) exports.now)
        (option_map break_of result) }
{
    let mut least = None;
    for (number, tree) in exports.iter().enumerate() {
        let file = export_file_of(lines, number);
        least = first(least, listed_break(file, tree.classes.items()));
    }
    least
}

/// The first rule that the classes of the export files beside a package break.
#[tactic(auto, unfolding(crate::specs::Exports::export_breaks))]
pub(crate) fn exports_break<'w>(world: &'w World<'_>) -> Option<Break<'w>>
    ensures { IsFirstOf (export_breaks world.now) (option_map break_of result) }
{
    exports_break_of(world.lines().items(), world.exports().items())
}
