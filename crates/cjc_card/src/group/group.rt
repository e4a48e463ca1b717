//! `Group`, a package ready to be run: its tables, what stands above its classes and above imported ones, made
//! once before the first instruction.

ghost use Rattle.std.specs.Prelude.{◌≡◌, ◌<◌, ◌^◌, map, true, IfOk, OnOk};
ghost use Rattle.std.specs.List.{AllByRecursion};
ghost use Rattle.cjc_card_calls.specs.LowerCheckRules.Complete.{class_info_size};
ghost use Rattle.cjc_card_calls.specs.Lines.Handlers.{are_all_near, are_near, are_parts_near};
ghost use Rattle.cjc_card_calls.specs.LowerCardLink.Group.{alone, group_of, group_part};
ghost use Rattle.cjc_card_calls.specs.LowerCardLink.Tables.{AreKept, loaded_of};

use cjc_card_calls::card_link::{GroupPart, Part, Tables};
use cjc_card_calls::files::Files;
use cjc_card_calls::lines::{Lines, are_near};
use cjc_card_semantics::capread::Method;
use cjc_card_semantics::export_file::ExportTree;
use cjc_script::bytes::{NoMemory, Row};
use std::alloc::Global;
use std::marker::Model;

/// A package with names and the export files that it imports, ready to be run.
#[derive(Drop)]
pub struct Group<'a> {
    pub(crate) tables: Tables<'a>,
    pub(crate) lines: Lines,
    pub(crate) files: Files<'a>,
}

impl<'a> Model for Group<'a> {
    ghost use Rattle.cjc_card_semantics.specs.Machine.Loaded.{Loaded};
    ghost use Rattle.cjc_card_calls.specs.LowerCardLink.Tables.{loaded_of};
    ghost use Rattle.cjc_card.specs.Ready.{AreReady};

    ghost Value = { Loaded };

    ghost view = { λ g. loaded_of g.tables };

    ghost invariant = { λ g. AreReady g.tables g.lines g.files };
}

// No memory is there for handlers at offsets of 2^32 or more.
fn check_handlers(method: &Method) -> Result<(), NoMemory>
    ensures { OnOk result (are_near method.now.handlers ≡ true) }
{
    if are_near(method.handlers.items()) {
        Ok(())
    } else {
        Err(NoMemory)
    }
}

// The same of all packages.
fn check_all_handlers(parts: &[GroupPart<'_>]) -> Result<(), NoMemory>
    ensures { OnOk result (are_parts_near (map group_part parts.now) ≡ true) }
{
    for part in parts {
        check_handlers(part.part.method)?;
    }
    Ok(())
}

impl<'a> Group<'a> {
    /// The group of one package and of the export files that it imports, in the order of Import. No memory is there
    /// for handlers at offsets of 2^32 or more.
    pub fn new(
        alloc: Global,
        part: Part<'a>,
        trees: &'a [ExportTree],
    ) -> Result<Group<'a>, NoMemory>
        requires { class_info_size part.class.now < 2 ^ 32 }
        ensures { IfOk result (λ g. g ≡ alone part.entry trees.now) }
    {
        check_handlers(part.method)?;
        let tables = Tables::new(alloc, part, trees)?;
        let group = Group::over(alloc, tables)?;
        Ok(group)
    }

    /// The group of several packages and of the export files of what is outside. No memory is there for handlers at
    /// offsets of 2^32 or more.
    pub fn of_packages(
        alloc: Global,
        parts: Row<GroupPart<'a>>,
        trees: &'a [ExportTree],
    ) -> Result<Group<'a>, NoMemory>
        requires { AllByRecursion (λ p. class_info_size p.part.class.now < 2 ^ 32) parts }
        ensures { IfOk result (λ g. g ≡ group_of parts.entry trees.now) }
    {
        check_all_handlers(parts.items())?;
        let tables = Tables::of_group(alloc, parts, trees)?;
        let group = Group::over(alloc, tables)?;
        Ok(group)
    }

    // What is kept over tables.
    fn over(alloc: Global, tables: Tables<'a>) -> Result<Group<'a>, NoMemory>
        requires kept { AreKept tables }
        requires near { are_all_near (loaded_of tables) ≡ true }
        ensures { IfOk result (λ g. g ≡ loaded_of tables.entry) }
    {
        let lines = Lines::new(alloc, &tables)?;
        let files = Files::new(alloc, &tables)?;
        Ok(Group {
            tables,
            lines,
            files,
        })
    }
}
