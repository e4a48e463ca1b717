//! The class_ref of each name of a class, by where the infos of Class begin: the i-th is that of the i-th class of
//! the package (Java Card Virtual Machine Specification 2.2.2, section 6.1). Called by whoever compares class_refs
//! and types.

ghost use Rattle.std.specs.Prelude.{◌≡◌, ◌+◌, ◌++◌, ◌<◌, ◌^◌, ℕ, List, Some, map, option_map, IfOk, OnOk};
ghost use Rattle.cjc_capread.specs.declared.tree.ClassRef.TheVariants.{Inside};
ghost use Rattle.cjc_card_acts.specs.CardSemantics.Machine.Classes.{or_else};
ghost use Rattle.cjc_check_rules.specs.Classes.{first_class, first_interface};
ghost use Rattle.cjc_check_rules.specs.Complete.{class_info_size, class_size, interface_size};
ghost use Rattle.cjc_check_rules.specs.Spots.{starts as starts_from};
ghost use Rattle.cjc_check_rules.specs.Described.{all_starts};
ghost use Rattle.cjc_classes.specs.ClassOrder.Classes.Numbers.{declared_at};
ghost use Rattle.cjc_world.specs.Classes.{all_classes};
ghost use Rattle.cjc_world.specs.Order.{class_order};
ghost use Rattle.cjc_classes.specs.ClassInfo.Refs.{ref_in, ref_of};
ghost use Rattle.cjc_verify.specs.Pairs.{Pair, class_ref, starts};
ghost use Rattle.cjc_verify.specs.Refs.{spot_by};

use cjc_bytes::{NoMemory, Row};
use cjc_capread::ClassInfo;
use cjc_card_calls::check_index::lookup::{first_class, starts};
use cjc_classes::class_info::{ClassRefs, note_class, note_files};
use cjc_world::World;
use std::alloc::Global;

fn put_starts(row: &mut Row<u64>, starts: &[u64]) -> Result<(), NoMemory>
    ensures { OnOk result (row.new ≡ row.old ++ starts.now) }
{
    for start in starts {
        row.push(*start)?;
    }
    Ok(())
}

fn interface_starts(alloc: Global, class: &ClassInfo) -> Result<Row<u64>, NoMemory>
    requires { 3 + class_info_size class.now < 2 ^ 32 }
    ensures { IfOk result (λ s. s ≡ starts_from interface_size first_interface class.now.interfaces) }
{
    starts(alloc, 2, class.interfaces.items())
}

fn class_starts(alloc: Global, class: &ClassInfo) -> Result<Row<u64>, NoMemory>
    requires { 3 + class_info_size class.now < 2 ^ 32 }
    ensures { IfOk result (λ s. s ≡ starts_from class_size (first_class class.now) class.now.classes) }
{
    starts(alloc, first_class(class), class.classes.items())
}

/// Where the infos of Class begin, in order.
pub(crate) fn all_starts(alloc: Global, class: &ClassInfo) -> Result<Row<u64>, NoMemory>
    requires { 3 + class_info_size class.now < 2 ^ 32 }
    ensures { IfOk result (λ s. s ≡ all_starts class.now) }
{
    let interfaces = interface_starts(alloc, class)?;
    let classes = class_starts(alloc, class)?;
    let mut row = Row::new(alloc);
    put_starts(&mut row, interfaces.items())?;
    put_starts(&mut row, classes.items())?;
    Ok(row)
}

/// Notes the classes of these numbers by their starts, as far as there are both.
fn note_own(
    alloc: Global,
    world: &World<'_>,
    refs: &mut ClassRefs,
    order: &[u32],
    starts: &[u64],
) -> Result<(), NoMemory>
    ensures { OnOk result ((x : List ℕ) → ref_in refs.new x ≡ or_else (ref_in refs.old x)
        (option_map Inside (spot_by world.now.classes order.now starts.now x))) }
{
    for (i, number) in order.iter().enumerate() {
        if i >= starts.len() {
            return Ok(());
        }
        note_class(alloc, world.classes().items(), refs, *number, starts[i])?;
    }
    Ok(())
}

/// The class_ref of each name: of a class of the package by its start, else by the first export file that has it.
pub(crate) fn class_refs(
    alloc: Global,
    world: &World<'_>,
    order: &[u32],
    begins: &[u64],
) -> Result<ClassRefs, NoMemory>
    requires { map Some (class_order (all_classes world.now)) ≡ map (declared_at world.now.classes) order.now }
    ensures { (p : Pair) → p.files ≡ world.now → begins.now ≡ starts p → IfOk result (λ refs. (name : List ℕ)
        → ref_of refs name ≡ class_ref p name) }
{
    let mut refs = ClassRefs::new(alloc);
    note_own(alloc, world, &mut refs, order, begins)?;
    note_files(alloc, &mut refs, world.exports().items())?;
    Ok(refs)
}
