//! What names the classes and members of a package in its components: made once, and lent to whoever makes a component.

ghost use Rattle.std.specs.Prelude.{◌≡◌, IfOk};
ghost use Rattle.cjc_exported.specs.World.Classes.{all_classes};
ghost use Rattle.cjc_classes.specs.VTable.Tables.{class_tables};
ghost use Rattle.cjc_exported.specs.Components.Package.{Package};
ghost use Rattle.cjc_captree.specs.Trees.Given.{AreGiven, HasTokens};
ghost use Rattle.cjc_captree.specs.Trees.Working.{AreNames};

use crate::extents::method_offsets;
use crate::trees::given::Given;
use crate::trees::numbered::refs_by_number;
use crate::trees::order::numbers_in_order;
use cjc_classes::bytes::{NoMemory, Row};
use cjc_classes::capread::ClassRef;
use cjc_classes::class_info::{ClassRefs, class_refs};
use cjc_classes::descriptor::cell_offsets;
use cjc_classes::vtable::{ClassTables, tables};
use std::alloc::Global;

/// The names of a package.
pub(crate) struct Names {
    pub tables: ClassTables,
    /// The class_ref of each name.
    pub refs: ClassRefs,
    /// The numbers of the classes in their order.
    pub order: Row<u32>,
    /// By the numbers of a class and of its method the offset of the method's header.
    pub offsets: Row<Row<u64>>,
    /// By the numbers of a class and of its field the offset of the field's cell.
    pub cells: Row<Row<u64>>,
    /// The class_refs of the package's classes by number.
    pub numbered: Row<ClassRef>,
}

impl Drop for Names {
    fn drop(self) {
        let Names {
            tables: _tables,
            refs: _refs,
            order: _order,
            offsets: _offsets,
            cells: _cells,
            numbered: _numbered,
        } = self;
    }
}

/// What is made of a package names it.
pub(crate) fn names_of(alloc: Global, given: &Given<'_>) -> Result<Names, NoMemory>
    requires { HasTokens given.now }
    ensures tables { IfOk result (λ n. n.tables.rows ≡ class_tables (all_classes given.now.world.now)) }
    ensures names { (p : Package) → AreGiven p given.now → IfOk result (AreNames p) }
{
    let classes = given.world.classes().items();
    let tables = tables(alloc, given.world, given.tokens)?;
    let refs = class_refs(alloc, given.world, &tables)?;
    let order = numbers_in_order(alloc, given.world, given.order)?;
    let offsets = method_offsets(alloc, given.extents)?;
    let cells = cell_offsets(alloc, given.image, classes)?;
    let numbered = refs_by_number(alloc, classes, &refs)?;
    Ok(Names {
        tables,
        refs,
        order,
        offsets,
        cells,
        numbered,
    })
}
