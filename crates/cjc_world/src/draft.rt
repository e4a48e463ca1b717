//! All classes with what stands above each, and the cycles where there are any: what the rules of a world are
//! tested on, before there is a world.

ghost use Rattle.std.specs.Prelude.{◌≡◌, ℕ, [], true, is_some, length, slice_get, IfSome, IfNone, IfOk, MatchOption, Some};
ghost use Rattle.std.specs.List.{list_all};
ghost use Rattle.cjc_world.specs.Added.{added_at};
ghost use Rattle.cjc_world.specs.Classes.{all_classes};
ghost use Rattle.cjc_world.specs.Kin.{IsAcyclic};
ghost use Rattle.cjc_bytes.specs.Breaks.{IsFirstRefusal};
ghost use Rattle.cjc_world.specs.Rules.{breaks};
ghost use Rattle.cjc_world.specs.Working.Drafts.{AreTables, is_number_ready};
ghost use Rattle.cjc_world.specs.Working.Steps.{AreCycles};
ghost use Rattle.cjc_world.specs.Working.Tables.{IsPart};

use crate::circular::Cycles;
use crate::roster::Roster;
use crate::tables::{Above, all_there};
use cjc_bytes::{Fault, FileLine, MemberId, NoMemory, Row, refused_at};
use cjc_classfile::ClassTree;
use cjc_export::ExportTree;
use std::alloc::Global;
use std::marker::Model;

/// What is kept of the classes that have no cycle at them or above them.
pub(crate) struct Tables {
    /// Of each class what stands above it, in the order of the list.
    pub above: Row<Option<Above>>,
    /// Of each class of the package the methods that it gets from its interfaces.
    pub added: Row<Row<MemberId>>,
}

impl Drop for Tables {
    fn drop(self) {
        let Tables {
            above: _above,
            added: _added,
        } = self;
    }
}

/// The classes, with what is kept of them.
pub(crate) struct Draft<'a> {
    pub roster: Roster<'a>,
    pub tables: Tables,
    /// Where a class is its own super.
    pub cycles: Option<Cycles>,
}

impl Drop for Draft<'_> {
    fn drop(self) {
        let Draft {
            roster: _roster,
            tables: _tables,
            cycles: _cycles,
        } = self;
    }
}

impl<'a> Model for Draft<'a> {
    ghost use Rattle.cjc_world.specs.Files.{Files};
    ghost use Rattle.cjc_world.specs.Working.Drafts.{IsKept};

    ghost Value = { Files };

    ghost view = { λ d. d.roster };

    ghost invariant = { λ d. IsKept d.roster d.tables d.cycles };
}

/// What stands above each class, and what each gets.
fn tables_of(alloc: Global, roster: &Roster<'_>) -> Result<Tables, NoMemory>
    ensures part { IfOk result (λ t. IsPart (all_classes roster.now) t.above) }
    ensures all { IfOk result (λ t. list_all is_some t.above ≡ true → IsAcyclic (all_classes roster.now)) }
    ensures count { IfOk result (λ t. length t.added ≡ length roster.now.classes) }
    ensures added { IfOk result (λ t. (i : ℕ) → is_number_ready roster.now t.above i ≡ true → slice_get t.added i ≡ Some (added_at roster.now i)) }
{
    let above = roster.above_all(alloc)?;
    let added = roster.added_rows(alloc, above.items())?;
    Ok(Tables { above, added })
}

/// What the rules ask of cycles, or None where all rows are there, so that there is none.
fn cycles_of(
    alloc: Global,
    roster: &Roster<'_>,
    rows: &[Option<Above>],
) -> Result<Option<Cycles>, NoMemory>
    ensures { IfOk result (λ o. MatchOption o (list_all is_some rows.now ≡ true) (λ c. AreCycles (all_classes roster.now) c)) }
{
    if all_there(rows) {
        Ok(None)
    } else {
        Ok(Some(roster.cycles(alloc)?))
    }
}

impl<'a> Draft<'a> {
    /// The classes, with what stands above each and what each gets.
    pub(crate) fn new(alloc: Global, roster: Roster<'a>) -> Result<Draft<'a>, NoMemory>
        ensures { IfOk result (λ d. d ≡ roster.entry) }
    {
        let tables = tables_of(alloc, &roster)?;
        let cycles = cycles_of(alloc, &roster, tables.above.items())?;
        Ok(Draft {
            roster,
            tables,
            cycles,
        })
    }

    /// The classes, with what is kept of them where there is no cycle.
    pub(crate) fn into_parts(self) -> (Roster<'a>, Tables)
        ensures roster { result.0 ≡ self.entry }
        ensures tables { IsAcyclic (all_classes self.entry) → AreTables self.entry result.1 }
    {
        let Draft {
            roster,
            tables,
            cycles: _cycles,
        } = self;
        (roster, tables)
    }

    /// The class files, in list order.
    pub(crate) fn classes(&self) -> &Row<ClassTree<'a>>
        ensures { result.now ≡ self.now.classes }
    {
        self.roster.classes()
    }

    /// The export files, in list order.
    pub(crate) fn exports(&self) -> &Row<ExportTree>
        ensures { result.now ≡ self.now.exports }
    {
        self.roster.exports()
    }

    /// The lines of the list that name files.
    pub(crate) fn lines(&self) -> &Row<FileLine>
        ensures { result.now ≡ self.now.lines }
    {
        self.roster.lines()
    }

    /// The refusal of the first rule that is broken, or that there is no memory to say so.
    pub(crate) fn first_fault(&self, alloc: Global, list: &[u8]) -> Option<Fault>
        ensures none { IfNone result (breaks list.now self.now ≡ []) }
        ensures some { IfSome result (IsFirstRefusal (breaks list.now self.now)) }
    {
        match self.first_broken(list) {
            Ok(None) => None,
            Ok(Some(broken)) => Some(refused_at(alloc, broken.rule, broken.spot.place)),
            Err(NoMemory) => Some(Fault::NoMemory),
        }
    }
}
