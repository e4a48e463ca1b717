//! The component Class: interfaces, then classes (Java Card Virtual Machine Specification 2.2.2, 6.8). Called by
//! `component`, which says where the file ends. It knows no name and no other component.

ghost use Rattle.std.specs.Prelude.{◌≡◌, Ok};
ghost use Rattle.cjc_bytes.specs.Format.{repeated};
ghost use Rattle.cjc_bytes.specs.Found.{Finds};
ghost use Rattle.cjc_bytes.specs.Reading.{Reads};
ghost use Rattle.cjc_capread.specs.Class.{interface_entry, implemented_interface, class_entry, with_interface};
ghost use Rattle.cjc_capread.specs.Class.{with_class, entry_content, next_entry, no_entries, class_info};
ghost use Rattle.cjc_capread.specs.Until.{until};

use crate::parts::{read_class_ref, read_class_refs, read_items1, read_numbers};
use crate::tree::{ClassEntry, ClassInfo, ImplementedInterface, InterfaceEntry};
use cjc_bytes::{Cursor, Row, Stop};
use std::alloc::Global;

#[tactic(auto, unfolding(crate::specs::Class::interface_entry))]
fn read_interface(
    alloc: Global,
    flags: u8,
    count: u8,
    cursor: &mut Cursor<'_>,
) -> Result<InterfaceEntry, Stop>
    ensures { Reads (λ x. x) (interface_entry flags count) cursor.old cursor.new result }
{
    let superinterfaces = read_class_refs(alloc, count, cursor)?;
    Ok(InterfaceEntry {
        flags,
        superinterfaces,
    })
}

#[tactic(auto, unfolding(crate::specs::Class::implemented_interface))]
fn read_implemented_interface(
    alloc: Global,
    cursor: &mut Cursor<'_>,
) -> Result<ImplementedInterface, Stop>
    ensures { Reads (λ x. x) implemented_interface cursor.old cursor.new result }
{
    let interface = read_class_ref(cursor)?;
    let index = read_items1(alloc, cursor)?;
    Ok(ImplementedInterface { interface, index })
}

#[tactic(auto, using(cjc_bytes::proofs::Loops::repeated_more, cjc_bytes::proofs::Loops::repeated_stops, cjc_bytes::proofs::Loops::repeated_all, cjc_bytes::proofs::Loops::with_none))]
fn read_implemented_interfaces(
    alloc: Global,
    count: u8,
    cursor: &mut Cursor<'_>,
) -> Result<Row<ImplementedInterface>, Stop>
    ensures { Reads (λ xs. xs) (repeated count implemented_interface) cursor.old cursor.new result }
{
    let mut interfaces = Row::new(alloc);
    for _ in 0..count {
        interfaces.push(read_implemented_interface(alloc, cursor)?)?;
    }
    Ok(interfaces)
}

#[tactic(auto, unfolding(crate::specs::Class::class_entry, cjc_bytes::specs::Format::u1))]
fn read_class(
    alloc: Global,
    flags: u8,
    count: u8,
    cursor: &mut Cursor<'_>,
) -> Result<ClassEntry, Stop>
    ensures { Reads (λ x. x) (class_entry flags count) cursor.old cursor.new result }
{
    let superclass = read_class_ref(cursor)?;
    let declared_instance_size = cursor.u1()?;
    let first_reference_token = cursor.u1()?;
    let reference_count = cursor.u1()?;
    let public_base = cursor.u1()?;
    let public_count = cursor.u1()?;
    let package_base = cursor.u1()?;
    let package_count = cursor.u1()?;
    let public_methods = read_numbers(alloc, u16::from(public_count), cursor)?;
    let package_methods = read_numbers(alloc, u16::from(package_count), cursor)?;
    let interfaces = read_implemented_interfaces(alloc, count, cursor)?;
    Ok(ClassEntry {
        flags,
        superclass,
        declared_instance_size,
        first_reference_token,
        reference_count,
        public_base,
        package_base,
        public_methods,
        package_methods,
        interfaces,
    })
}

impl ClassInfo {
    fn with_interface(mut self, interface: InterfaceEntry) -> Result<ClassInfo, Stop>
        ensures { Finds (λ x. x) (Ok (with_interface self interface)) result }
    {
        self.interfaces.push(interface)?;
        Ok(self)
    }

    fn with_class(mut self, class: ClassEntry) -> Result<ClassInfo, Stop>
        ensures { Finds (λ x. x) (Ok (with_class self class)) result }
    {
        self.classes.push(class)?;
        Ok(self)
    }
}

/// What stands behind the first byte of a class or an interface.
#[tactic(auto, unfolding(crate::specs::Class::entry_content))]
fn read_entry_content(
    alloc: Global,
    so_far: ClassInfo,
    is_class: bool,
    first: u8,
    cursor: &mut Cursor<'_>,
) -> Result<ClassInfo, Stop>
    ensures { Reads (λ x. x) (entry_content so_far is_class first) cursor.old cursor.new result }
{
    if is_class {
        let class = read_class(alloc, first / 16, first % 16, cursor)?;
        so_far.with_class(class)
    } else {
        let interface = read_interface(alloc, first / 16, first % 16, cursor)?;
        so_far.with_interface(interface)
    }
}

#[tactic(auto, unfolding(crate::specs::Class::next_entry))]
fn read_next_entry(
    alloc: Global,
    so_far: ClassInfo,
    cursor: &mut Cursor<'_>,
) -> Result<ClassInfo, Stop>
    ensures { Reads (λ x. x) (next_entry so_far) cursor.old cursor.new result }
{
    let at = cursor.at();
    let first = cursor.u1()?;
    let is_class = first < 0x80;
    if !is_class && !so_far.classes.items().is_empty() {
        return Err(Stop::Broken(at));
    }
    read_entry_content(alloc, so_far, is_class, first, cursor)
}

#[tactic(auto, using(crate::proofs::Untils::until_more, crate::proofs::Untils::until_stops, crate::proofs::Untils::until_ended, crate::proofs::Untils::until_all))]
fn read_entries(alloc: Global, end: u32, cursor: &mut Cursor<'_>) -> Result<ClassInfo, Stop>
    ensures { Reads (λ x. x) (until end end next_entry no_entries) cursor.old cursor.new result }
{
    let mut so_far = ClassInfo {
        interfaces: Row::new(alloc),
        classes: Row::new(alloc),
    };
    for _ in 0..end {
        if cursor.at() >= end {
            return Ok(so_far);
        }
        so_far = read_next_entry(alloc, so_far, cursor)?;
    }
    Ok(so_far)
}

/// The content of a Class component, its interfaces and classes up to where it ends.
#[tactic(auto, unfolding(crate::specs::Class::class_info))]
pub(crate) fn read_class_info(
    alloc: Global,
    end: u32,
    cursor: &mut Cursor<'_>,
) -> Result<ClassInfo, Stop>
    ensures { Reads (λ x. x) (class_info end) cursor.old cursor.new result }
{
    let at = cursor.at();
    if cursor.u2()? != 0 {
        return Err(Stop::Broken(at));
    }
    read_entries(alloc, end, cursor)
}
