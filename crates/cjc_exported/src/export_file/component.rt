//! Export (Java Card Virtual Machine Specification 2.2.2, section 6.12): the classes that other packages can
//! use, from the offsets of classes, of cells and of methods. It knows no token, since each stands at its own.

ghost use Rattle.std.specs.Prelude.{◌≡◌, ◌+◌, ◌≤◌, ◌<◌, ◌∷◌, ◌++◌, ℕ, [], filter, false, if◌then◌else◌, length, map};
ghost use Rattle.std.specs.Prelude.{slice_get, unwrap_or, IfOk, OnOk, Some};
ghost use Rattle.cjc_world.specs.ClassFile.declared.tree.FieldTree.{FieldTree as Field};
ghost use Rattle.cjc_world.specs.declared.found.Found.{Found as Place};
ghost use Rattle.cjc_world.specs.Classes.{all_classes, class_at};
ghost use Rattle.cjc_world.specs.Exported.{is_exported};
ghost use Rattle.cjc_world.specs.Lookup.{member_at};
ghost use Rattle.cjc_world.specs.Working.Known.{class_of};
ghost use Rattle.cjc_components.specs.LowerTokens.Fields.{is_open_static};
ghost use Rattle.cjc_components.specs.LowerTokens.Methods.{is_open_bound};
ghost use Rattle.cjc_components.specs.Class.{fields_in};
ghost use Rattle.cjc_components.specs.Exports.{export, exported_class, exported_classes, open_methods};
ghost use Rattle.cjc_components.specs.Package.{Package, has_applets};
ghost use Rattle.cjc_exported.specs.ExportFile.Offsets.{AreOffsets};
ghost use Rattle.cjc_exported.specs.ExportFile.Working.Exported.{offset_in, ref_offset, row_at};
ghost use Rattle.cjc_exported.specs.ExportFile.Working.Sources.{method_of};

use crate::export_file::method::{Method, is_exposed, is_initialiser, own_method};
use crate::export_file::numbered::classes_of_kind;
use crate::export_file::source::place_after;
use cjc_components::capread::{ClassRef, Export, ExportedClass};
use cjc_components::list::List;
use cjc_world::bytes::{NoMemory, Row, is_static};
use cjc_world::classfile::{ClassTree, FieldTree};
use cjc_world::export_file::may_be_constant;
use cjc_world::{Known, World};
use std::alloc::Global;

const CONSTRUCTOR: &[u8] = b"<init>";

/// Where the classes and members of a package stand, by the number of a class and by the place of a member in
/// it: the fields are counted first, then the methods.
#[derive(Clone, Copy)]
pub struct Offsets<'r> {
    /// Of each class.
    pub refs: &'r [ClassRef],
    /// Of each field the offset of its cell in the static field image.
    pub cells: &'r [Row<u64>],
    /// Of each method the offset of its header in Method. A row begins with the fields of its class, where
    /// anything may stand.
    pub methods: &'r [Row<u64>],
}

fn offset_in(class: &ClassRef) -> u64
    ensures { result ≡ offset_in class.now }
{
    match class {
        ClassRef::Inside(offset) => *offset,
        ClassRef::Outside { .. } => 0,
    }
}

fn ref_offset(refs: &[ClassRef], class: u32) -> u64
    ensures { result ≡ ref_offset refs.now class }
{
    match refs.get(class as usize) {
        Some(class) => offset_in(class),
        None => 0,
    }
}

fn row_at(rows: &[Row<u64>], class: u32) -> &[u64]
    ensures { result.now ≡ row_at rows.now class }
{
    match rows.get(class as usize) {
        Some(row) => row.items(),
        None => &[],
    }
}

fn offset_at(row: &[u64], place: usize) -> u64
    ensures { result ≡ unwrap_or (slice_get row.now place) 0 }
{
    match row.get(place) {
        Some(offset) => *offset,
        None => 0,
    }
}

/// Whether a static field has a token: it is public or protected, and no constant.
fn is_open_static(field: &FieldTree) -> bool
    ensures { result ≡ is_open_static field.now }
{
    let constant = may_be_constant(field.flags, field.desc.items()) && field.constant.is_some();
    is_static(field.flags) && is_exposed(field.flags) && !constant
}

/// Whether a method is a public or protected static method or constructor.
fn is_open_bound(method: Method<'_>) -> bool
    ensures { result ≡ is_open_bound (method_of method.entry) }
{
    is_exposed(method.flags)
        && (is_static(method.flags) || method.name == CONSTRUCTOR)
        && !is_initialiser(method.name)
}

/// Puts the offset of a field's cell at the end where it has a token.
fn put_cell(field: &FieldTree, offset: u64, cells: &mut Row<u64>) -> Result<(), NoMemory>
    ensures { OnOk result (cells.new ≡ cells.old ++ (if is_open_static field.now then offset ∷ [] else [])) }
{
    if is_open_static(field) {
        cells.push(offset)?;
    }
    Ok(())
}

/// The offsets of the cells of static fields, by token.
fn cells_by_token(alloc: Global, fields: &[FieldTree], row: &[u64]) -> Result<Row<u64>, NoMemory>
    ensures { (g : Field → ℕ) → row.now ≡ map g fields.now
        → IfOk result (λ cells. cells ≡ map g (filter is_open_static fields.now)) }
{
    let mut cells = Row::new(alloc);
    for place in 0..fields.len() {
        put_cell(&fields[place], offset_at(row, place), &mut cells)?;
    }
    Ok(cells)
}

/// The same of a class by its number.
fn cells_of(
    alloc: Global,
    classes: &[ClassTree<'_>],
    class: u32,
    cells: &[Row<u64>],
) -> Result<Row<u64>, NoMemory>
    ensures { (g : Field → ℕ) → row_at cells.now class ≡ map g (fields_in (slice_get classes.now class))
        → IfOk result (λ cells. cells ≡ map g (filter is_open_static (fields_in (slice_get classes.now class)))) }
{
    match classes.get(class as usize) {
        Some(tree) => cells_by_token(alloc, tree.fields.items(), row_at(cells, class)),
        None => Ok(Row::new(alloc)),
    }
}

/// Puts the offset of a method's header at the end where it has a token among static methods and constructors.
fn put_header(method: Method<'_>, offset: u64, headers: &mut Row<u64>) -> Result<(), NoMemory>
    ensures { OnOk result (headers.new ≡ headers.old ++ (if is_open_bound (method_of method.entry) then offset ∷ []
        else [])) }
{
    if is_open_bound(method) {
        headers.push(offset)?;
    }
    Ok(())
}

/// The offsets of the headers of static methods and constructors, by token.
fn headers_by_token(alloc: Global, class: Known<'_, '_>, row: &[u64]) -> Result<Row<u64>, NoMemory>
    ensures { (h : Place → ℕ) → ((k : ℕ) → length (class_of class.entry).fields ≤ k
        → k < length (class_of class.entry).fields + length (class_of class.entry).methods
        → slice_get row.now k ≡ Some (h (member_at (class_of class.entry) k)))
        → IfOk result (λ headers. headers
        ≡ map h (open_methods (class_of class.entry) (length (class_of class.entry).fields)
        (class_of class.entry).methods)) }
{
    let mut headers = Row::new(alloc);
    for place in 0..class.member_count(false) {
        let member = place_after(class.field_count(), place)?;
        let offset = offset_at(row, member as usize);
        put_header(own_method(class, place), offset, &mut headers)?;
    }
    Ok(headers)
}

/// A class of the package that others may name.
fn exported_class(
    alloc: Global,
    world: &World<'_>,
    class: Known<'_, '_>,
    offsets: Offsets<'_>,
) -> Result<ExportedClass, NoMemory>
    requires { class_at (all_classes world.now) false (class_of class).number ≡ Some (class_of class) }
    ensures { (p : Package) → p.files ≡ world.now → AreOffsets p offsets.entry
        → IfOk result (λ c. c ≡ exported_class p (class_of class.entry)) }
{
    let number = class.number();
    let fields = cells_of(alloc, world.classes().items(), number, offsets.cells)?;
    let methods = headers_by_token(alloc, class, row_at(offsets.methods, number))?;
    Ok(ExportedClass {
        class_offset: ref_offset(offsets.refs, number),
        fields,
        methods,
    })
}

/// Puts a class of the package at the end where others may name it.
fn put_exported(
    alloc: Global,
    world: &World<'_>,
    applets: bool,
    class: Known<'_, '_>,
    offsets: Offsets<'_>,
    classes: &mut Row<ExportedClass>,
) -> Result<(), NoMemory>
    requires { class_at (all_classes world.now) false (class_of class).number ≡ Some (class_of class) }
    ensures { (p : Package) → p.files ≡ world.now → AreOffsets p offsets.entry → OnOk result (classes.new ≡ classes.old
        ++ (if is_exported (all_classes world.now) applets (class_of class.entry)
        then exported_class p (class_of class.entry) ∷ [] else [])) }
{
    if world.is_exported(applets, class) {
        classes.push(exported_class(alloc, world, class, offsets)?)?;
    }
    Ok(())
}

/// The classes of the package that others may name, by token.
fn exported(
    alloc: Global,
    world: &World<'_>,
    applets: bool,
    offsets: Offsets<'_>,
) -> Result<Row<ExportedClass>, NoMemory>
    ensures { (p : Package) → p.files ≡ world.now → applets ≡ has_applets p → AreOffsets p offsets.entry
        → IfOk result (λ classes. classes ≡ map (exported_class p) (exported_classes p)) }
{
    let kept = classes_of_kind(alloc, world, false)?;
    let declared = kept.as_slice();
    let mut classes = Row::new(alloc);
    for number in 0..declared.len() {
        put_exported(
            alloc,
            world,
            applets,
            declared[number],
            offsets,
            &mut classes,
        )?;
    }
    Ok(classes)
}

/// Export, where some class of the package is exported; the offsets are those of the package. Only want of
/// memory is an error.
pub fn export(
    alloc: Global,
    list: &List,
    world: &World<'_>,
    offsets: Offsets<'_>,
) -> Result<Option<Export>, NoMemory>
    ensures { (p : Package) → p.list ≡ list.now → p.files ≡ world.now → AreOffsets p offsets.entry
        → IfOk result (λ e. e ≡ export p) }
{
    let classes = exported(alloc, world, list.applets.items().len() > 0, offsets)?;
    if classes.items().is_empty() {
        Ok(None)
    } else {
        Ok(Some(Export { classes }))
    }
}
