//! The tables of all classes of a package, in the order of its list; interfaces have none. What the crate is
//! called for.

ghost use Rattle.std.specs.Prelude.{◌≡◌, Bool, IfOk, Some, slice_get};
ghost use Rattle.cjc_world.specs.ClassFile.declared.tree.ClassTree.{ClassTree as Tree};
ghost use Rattle.cjc_world.specs.Classes.{all_classes, declared};
ghost use Rattle.cjc_tokens.specs.Tokens.{assigned};
ghost use Rattle.cjc_vtable.specs.Working.Standing.{IsClass};
ghost use Rattle.cjc_vtable.specs.Tables.{class_tables, table_of};

use crate::entries::{methods, table};
use crate::maps::interface_maps;
use crate::table::{ClassTable, ClassTables};
use cjc_order::classes::class_order;
use cjc_tokens::Tokens;
use cjc_world::bytes::{NoMemory, Row};
use cjc_world::{Known, World};
use std::alloc::Global;

/// The tables of a class of the package that is no interface.
fn class_table(
    alloc: Global,
    world: &World<'_>,
    tokens: &Tokens,
    number: u32,
) -> Result<ClassTable, NoMemory>
    requires tokens { (applets : Bool) × (tokens.now ≡ assigned applets world.now) }
    requires class { IsClass world.now number }
    ensures { (c : Tree) → slice_get world.now.classes number ≡ Some c
        → IfOk result (λ t. t ≡ table_of (all_classes world.now) (declared number c)) }
{
    let class = Known::Declared(number, &world.classes().items()[number as usize]);
    let (public_base, public) = table(alloc, number, tokens.public_methods(number))?;
    let (package_base, entries) = table(alloc, number, tokens.package_methods(number))?;
    let package = methods(alloc, entries.items())?;
    let maps = interface_maps(alloc, world, tokens, class, number)?;
    Ok(ClassTable {
        class: number,
        public_base,
        public,
        package_base,
        package,
        maps,
    })
}

/// The tables of the classes of a package that are no interfaces, in the order of Class: of each the methods that its
/// tokens mean from the least on that it declares, overrides or got, and its interfaces with the tokens of their
/// methods.
pub fn tables(alloc: Global, world: &World<'_>, tokens: &Tokens) -> Result<ClassTables, NoMemory>
    requires tokens { (applets : Bool) × (tokens.now ≡ assigned applets world.now) }
    ensures { IfOk result (λ t. t.rows ≡ class_tables (all_classes world.now)) }
{
    let order = class_order(alloc, world, false)?;
    let mut rows = Row::new(alloc);
    for number in order.items() {
        rows.push(class_table(alloc, world, tokens, *number)?)?;
    }
    Ok(ClassTables { rows })
}
