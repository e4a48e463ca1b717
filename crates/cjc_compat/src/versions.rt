//! Which of rules 741 to 745 is broken first, and where. The command `compat` calls it.

ghost use Rattle.std.specs.Prelude.{◌≡◌, ℕ, [], option_map, IfErr, IfOk, OnOk};
ghost use Rattle.cjc_export.specs.Bytes.Breaks.{IsFirstOf, IsFirstRefusal, at, each};
ghost use Rattle.cjc_export.specs.Bytes.Order.{FilePlace};
ghost use Rattle.cjc_export.specs.Bytes.Told.{break_of, file_place_of, spot_of};
ghost use Rattle.cjc_compat.specs.References.{KeepsReferences};
ghost use Rattle.cjc_compat.specs.Rules.{at_class, at_field, at_method, breaks, class_breaks, is_lost_field};
ghost use Rattle.cjc_compat.specs.Rules.{is_lost_method, kept_breaks, with_token};
ghost use Rattle.cjc_export.specs.declared.tree.ExportClass.{ExportClass as Class};

use crate::rules::{
    is_less, is_lost_field, is_lost_method, is_other_class, is_other_package, is_other_table,
    with_token,
};
use cjc_export::bytes::{
    Break, Fault, FileKey, FileRef, NoMemory, Part, PlaceRef, RulePlace, answer, broken, first,
};
use cjc_export::{ExportClass, ExportField, ExportMethod, ExportTree};
use std::alloc::Global;

/// The field at this place of an old class.
fn field_spot<'w>(class: RulePlace<'w>, place: usize, field: &'w ExportField) -> RulePlace<'w>
    ensures { (f : FilePlace) (n : ℕ) (c : Class) → spot_of class.entry ≡ at_class f n c
        → spot_of result ≡ at_field f n c place field.now }
{
    RulePlace {
        member: place as u128 + 1,
        place: PlaceRef {
            part: Part::Field(field.name.items(), field.desc.items()),
            offset: 0,
            ..class.place
        },
        ..class
    }
}

/// The method at this place of an old class.
fn method_spot<'w>(
    class: RulePlace<'w>,
    old: &'w ExportClass,
    place: usize,
    method: &'w ExportMethod,
) -> RulePlace<'w>
    ensures { (f : FilePlace) (n : ℕ) → spot_of class.entry ≡ at_class f n old.now
        → spot_of result ≡ at_method f n old.now place method.now }
{
    RulePlace {
        member: old.fields.items().len() as u128 + place as u128 + 1,
        place: PlaceRef {
            part: Part::Method(method.name.items(), method.desc.items()),
            offset: 0,
            ..class.place
        },
        ..class
    }
}

/// 743 of the fields of an old class.
fn fields_break<'w>(
    old: &'w ExportClass,
    new: &ExportClass,
    spot: RulePlace<'w>,
) -> Option<Break<'w>>
    ensures { (f : FilePlace) (n : ℕ) → spot_of spot.entry ≡ at_class f n old.now
        → IsFirstOf (each (λ i m. at (is_lost_field new.now.fields m) (at_field f n old.now i m) 743) old.now.fields)
        (option_map break_of result) }
{
    let mut least = None;
    let fields = old.fields.items();
    for (place, field) in fields.iter().enumerate() {
        let spot = field_spot(spot, place, field);
        least = first(
            least,
            broken(is_lost_field(new.fields.items(), field), spot, 743),
        );
    }
    least
}

/// 743 of the methods of an old class.
fn methods_break<'w>(
    old: &'w ExportClass,
    new: &ExportClass,
    spot: RulePlace<'w>,
) -> Option<Break<'w>>
    ensures { (f : FilePlace) (n : ℕ) → spot_of spot.entry ≡ at_class f n old.now
        → IsFirstOf (each (λ i m. at (is_lost_method new.now.methods m) (at_method f n old.now i m) 743)
        old.now.methods) (option_map break_of result) }
{
    let mut least = None;
    let methods = old.methods.items();
    for (place, method) in methods.iter().enumerate() {
        let spot = method_spot(spot, old, place, method);
        least = first(
            least,
            broken(is_lost_method(new.methods.items(), method), spot, 743),
        );
    }
    least
}

/// What is broken of an old class against the new one of its token.
fn kept_break<'w>(
    alloc: Global,
    old: &'w ExportClass,
    new: &ExportClass,
    spot: RulePlace<'w>,
) -> Result<Option<Break<'w>>, NoMemory>
    ensures { (f : FilePlace) (n : ℕ) → spot_of spot.entry ≡ at_class f n old.now
        → IfOk result (λ b. IsFirstOf (kept_breaks f n old.now new.now) (option_map break_of b)) }
{
    let class = broken(is_other_class(old, new), spot, 742);
    let table = broken(is_other_table(old, new), spot, 744);
    let supers = broken(is_less(alloc, old, new)?, spot, 745);
    let whole = first(first(class, table), supers);
    Ok(first(
        first(whole, fields_break(old, new, spot)),
        methods_break(old, new, spot),
    ))
}

/// What is broken of an old class.
fn class_break<'w>(
    alloc: Global,
    old: &'w ExportClass,
    new: &ExportTree,
    spot: RulePlace<'w>,
) -> Result<Option<Break<'w>>, NoMemory>
    ensures { (f : FilePlace) (n : ℕ) → spot_of spot.entry ≡ at_class f n old.now
        → IfOk result (λ b. IsFirstOf (class_breaks f n old.now (with_token old.now.token new.now.classes))
        (option_map break_of b)) }
{
    match with_token(new.classes.items(), old.token) {
        None => Ok(broken(true, spot, 742)),
        Some(class) => kept_break(alloc, old, class, spot),
    }
}

/// The first that is broken of all old classes.
fn classes_break<'w>(
    alloc: Global,
    file: FileRef<'w>,
    old: &'w ExportTree,
    new: &ExportTree,
) -> Result<Option<Break<'w>>, NoMemory>
    ensures { IfOk result (λ b. IsFirstOf (each (λ n c. class_breaks (file_place_of file.entry) n c
        (with_token c.token new.now.classes)) old.now.classes) (option_map break_of b)) }
{
    let mut least = None;
    let classes = old.classes.items();
    for (number, class) in classes.iter().enumerate() {
        let spot = RulePlace::of_class(file, number + 1, class.name.items());
        least = first(least, class_break(alloc, class, new, spot)?);
    }
    Ok(least)
}

/// Whether a new version of an export file, whose file has this name, may stand in the place of the old one.
///
/// # Errors
///
/// The first rule that is broken, in the order of the old file: 741 of the package; of each class 742, 744 and 745,
/// then 743 of its fields and of its methods; or want of memory. Places have the old class and the old member.
pub fn compat(alloc: Global, file: &[u8], old: &ExportTree, new: &ExportTree) -> Result<(), Fault>
    ensures unbroken { OnOk result (breaks file.now old.now new.now ≡ []) }
    ensures refused { IfErr result (IsFirstRefusal (breaks file.now old.now new.now)) }
    ensures keeps { OnOk result (KeepsReferences old.now new.now) }
{
    let place = FileRef {
        key: FileKey::Line(1),
        name: file,
    };
    let package = broken(
        is_other_package(old, new),
        RulePlace::of_class(place, 0, &[]),
        741,
    );
    let classes = classes_break(alloc, place, old, new)?;
    answer(alloc, first(package, classes))
}
