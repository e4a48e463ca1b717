//! What instructions, scripts and reports ask of a package, each by what is kept for it.

ghost use Rattle.std.specs.Prelude.{◌≡◌, map, option_map, slice_get};
ghost use Rattle.std.specs.Option.{option_copied};
ghost use Rattle.cjc_card_frame.specs.Kinds.{cell_name_of, cells_of};
ghost use Rattle.cjc_card_calls.specs.LowerCardLink.Tables.{loaded_of};

use crate::group::faults::fault_name;
use crate::group::group::Group;
use crate::group::shown::shown_fields;
use cjc_card_calls::calls::{reached, words};
use cjc_card_calls::card_link::Tables;
use cjc_card_calls::lines::{handler, is_of};
use cjc_card_calls::names::{called, imported, sent, throwable};
use cjc_card_frame::heap::{Class, Field, Shape, Slot};
use cjc_card_frame::jvm_step::frame::Exception;
use cjc_card_frame::opcodes::Mode;
use cjc_card_frame::parts::{Callee, CellName, Code, LookUps, Reached, Start, StaticCell};
use cjc_card_semantics::capread::StaticField;
use cjc_card_semantics::capread::decoder::Insn;
use cjc_script::FieldValue;
use cjc_script::bytes::{MemberId, NoMemory, Row};
use std::alloc::Global;

// The StaticField of a package.
fn statics_of<'a>(tables: &Tables<'a>, part: u32) -> Option<&'a StaticField>
    ensures { option_copied result ≡ option_map (λ p. p.statics) (slice_get (loaded_of tables.now).parts part) }
{
    match tables.part(part) {
        Some(part) => Some(part.statics),
        None => None,
    }
}

// The static cells of a package, in the order of a report.
fn cells_of<'a>(tables: &Tables<'a>, part: u32) -> &'a [CellName]
    ensures { map cell_name_of result.now ≡ cells_of (loaded_of tables.now) part }
{
    match tables.part(part) {
        Some(part) => part.cells,
        None => &[],
    }
}

impl LookUps for Group<'_> {
    ghost loaded = { λ g. g };

    fn is_of(&self, sub: Shape, sup: Shape) -> bool {
        is_of(&self.tables, &self.lines, sub, sup)
    }

    fn fresh(&self, alloc: Global, class: Class) -> Result<Option<Vec<Slot>>, NoMemory> {
        self.tables.fresh(alloc, class)
    }

    fn insn_at(&self, code: Code, at: u32) -> Option<Insn<'_>> {
        self.tables.insn_at(code, at)
    }

    fn class_entry(&self, part: u32, index: i32) -> Option<Class> {
        self.tables.class_entry(part, index)
    }

    fn field_entry(&self, part: u32, index: i32) -> Option<Field> {
        self.tables.field_entry(part, index)
    }

    fn cell_entry(&self, part: u32, index: i32) -> Option<StaticCell> {
        self.tables.cell_entry(part, index)
    }

    fn callee_entry(&self, part: u32, mode: Mode, index: i32) -> Option<Callee<'_>> {
        self.tables.callee_entry(part, mode, index)
    }

    fn handler(&self, code: Code, at: u32, kind: Shape) -> Option<u32> {
        handler(&self.tables, &self.lines, code, at, kind)
    }

    fn words(&self, callee: Callee<'_>) -> Result<Option<u64>, NoMemory> {
        words(&self.tables, &self.files, callee)
    }

    fn reached<'g>(&'g self, callee: Callee<'g>, receiver: Option<Shape>) -> Reached<'g> {
        reached(&self.tables, &self.files, callee, receiver)
    }

    fn fault_class(&self, exception: Exception) -> Option<Class> {
        self.tables.external_named(fault_name(exception))
    }

    fn class_named(&self, name: &[u8]) -> Option<Class> {
        self.tables.class_named(name)
    }

    fn imported(&self, name: &[u8]) -> Option<Class> {
        imported(&self.tables, name)
    }

    fn throwable(&self, name: &[u8]) -> Option<Class> {
        throwable(&self.tables, &self.lines, name)
    }

    fn called(&self, id: &MemberId) -> Option<Start> {
        called(&self.tables, id)
    }

    fn sent(&self, kind: Shape, id: &MemberId) -> Option<Start> {
        sent(&self.tables, &self.lines, &self.files, kind, id)
    }

    fn name(&self, class: Class) -> &[u8] {
        self.tables.name(class)
    }

    fn shown_fields(
        &self,
        alloc: Global,
        class: Class,
        slots: &[Slot],
    ) -> Result<Row<FieldValue>, NoMemory> {
        shown_fields(alloc, &self.tables, class, slots)
    }

    fn statics(&self, part: u32) -> Option<&StaticField> {
        statics_of(&self.tables, part)
    }

    fn cells(&self, part: u32) -> &[CellName] {
        cells_of(&self.tables, part)
    }
}
