//! All classes with what stands above each, and the cycles where there are any: what the rules of a world are
//! tested on, before there is a world.

ghost use Rattle.std.specs.Prelude.{◌≡◌, ℕ, [], true, is_some, length, slice_get, IfSome, IfNone, IfOk, MatchOption};
ghost use Rattle.std.specs.Prelude.{Some};
ghost use Rattle.std.specs.List.{list_all};
ghost use Rattle.cjc_world.specs.Added.{added_at};
ghost use Rattle.cjc_world.specs.Classes.{all_classes};
ghost use Rattle.cjc_world.specs.Supertypes.{IsAcyclic};
ghost use Rattle.cjc_bytes.specs.Breaks.{IsFirstRefusal};
ghost use Rattle.cjc_world.specs.Rules.{breaks};
ghost use Rattle.cjc_world.specs.Working.Unchecked.{AreTables, is_number_ready};
ghost use Rattle.cjc_world.specs.Working.Steps.{AreCycles};
ghost use Rattle.cjc_world.specs.Working.Tables.{IsPart};

use crate::circular::Cycles;
use crate::class_index::ClassIndex;
use crate::tables::{Above, all_there};
use cjc_bytes::{Fault, FileLine, MemberId, NoMemory, Row, refused_at};
use cjc_classfile::ClassTree;
use cjc_export::ExportTree;
use std::alloc::Global;
use std::marker::Model;

/// What is kept of the classes that have no cycle at them or above them.
pub(crate) struct Tables {
    /// Of each class what stands above it, in the order of the list.
    pub above: Row<Option<Above>>,
    /// Of each class of the package the methods that it gets from its interfaces.
    pub added: Row<Row<MemberId>>,
}

impl Drop for Tables {
    fn drop(self) {
        let Tables {
            above: _above,
            added: _added,
        } = self;
    }
}

/// The classes, with what is kept of them.
pub(crate) struct UncheckedWorld<'a> {
    pub class_index: ClassIndex<'a>,
    pub tables: Tables,
    /// Where a class is its own super.
    pub cycles: Option<Cycles>,
}

impl Drop for UncheckedWorld<'_> {
    fn drop(self) {
        let UncheckedWorld {
            class_index: _class_index,
            tables: _tables,
            cycles: _cycles,
        } = self;
    }
}

impl<'a> Model for UncheckedWorld<'a> {
    ghost use Rattle.cjc_world.specs.Files.{Files};
    ghost use Rattle.cjc_world.specs.Working.Unchecked.{IsKept};

    ghost Value = { Files };

    ghost view = { λ d. d.class_index };

    ghost invariant = { λ d. IsKept d.class_index d.tables d.cycles };
}

/// What stands above each class, and what each gets.
fn tables_of(alloc: Global, class_index: &ClassIndex<'_>) -> Result<Tables, NoMemory>
    ensures part { IfOk result (λ t. IsPart (all_classes class_index.now) t.above) }
    ensures all { IfOk result (λ t. list_all is_some t.above ≡ true → IsAcyclic (all_classes class_index.now)) }
    ensures count { IfOk result (λ t. length t.added ≡ length class_index.now.classes) }
    ensures added { IfOk result (λ t. (i : ℕ) → is_number_ready class_index.now t.above i ≡ true
        → slice_get t.added i ≡ Some (added_at class_index.now i)) }
{
    let above = class_index.above_all(alloc)?;
    let added = class_index.added_rows(alloc, above.items())?;
    Ok(Tables { above, added })
}

/// What the rules ask of cycles, or None where all rows are there, so that there is none.
fn cycles_of(
    alloc: Global,
    class_index: &ClassIndex<'_>,
    rows: &[Option<Above>],
) -> Result<Option<Cycles>, NoMemory>
    ensures { IfOk result (λ o. MatchOption o (list_all is_some rows.now ≡ true)
        (λ c. AreCycles (all_classes class_index.now) c)) }
{
    if all_there(rows) {
        Ok(None)
    } else {
        Ok(Some(class_index.cycles(alloc)?))
    }
}

impl<'a> UncheckedWorld<'a> {
    /// The classes, with what stands above each and what each gets.
    pub(crate) fn new(
        alloc: Global,
        class_index: ClassIndex<'a>,
    ) -> Result<UncheckedWorld<'a>, NoMemory>
        ensures { IfOk result (λ d. d ≡ class_index.entry) }
    {
        let tables = tables_of(alloc, &class_index)?;
        let cycles = cycles_of(alloc, &class_index, tables.above.items())?;
        Ok(UncheckedWorld {
            class_index,
            tables,
            cycles,
        })
    }

    /// The classes, with what is kept of them where there is no cycle.
    pub(crate) fn into_parts(self) -> (ClassIndex<'a>, Tables)
        ensures class_index { result.0 ≡ self.entry }
        ensures tables { IsAcyclic (all_classes self.entry) → AreTables self.entry result.1 }
    {
        let UncheckedWorld {
            class_index,
            tables,
            cycles: _cycles,
        } = self;
        (class_index, tables)
    }

    /// The class files, in list order.
    pub(crate) fn classes(&self) -> &Row<ClassTree<'a>>
        ensures { result.now ≡ self.now.classes }
    {
        self.class_index.classes()
    }

    /// The export files, in list order.
    pub(crate) fn exports(&self) -> &Row<ExportTree>
        ensures { result.now ≡ self.now.exports }
    {
        self.class_index.exports()
    }

    /// The lines of the list that name files.
    pub(crate) fn lines(&self) -> &Row<FileLine>
        ensures { result.now ≡ self.now.lines }
    {
        self.class_index.lines()
    }

    /// The refusal of the first rule that is broken, or that there is no memory to say so.
    pub(crate) fn first_fault(&self, alloc: Global, list: &[u8]) -> Option<Fault>
        ensures none { IfNone result (breaks list.now self.now ≡ []) }
        ensures some { IfSome result (IsFirstRefusal (breaks list.now self.now)) }
    {
        match self.first_broken(list) {
            Ok(None) => None,
            Ok(Some(broken)) => Some(refused_at(alloc, broken.rule, broken.spot.place)),
            Err(NoMemory) => Some(Fault::NoMemory),
        }
    }
}
