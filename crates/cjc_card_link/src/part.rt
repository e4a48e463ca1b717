//! What of a package is looked into when it runs: its components, lent, and the names that scripts and reports
//! use for what these hold.

use crate::names::ClassNames;
use cjc_card_frame::parts::CellName;
use cjc_card_semantics::capread::{
    ClassDescriptor, ClassInfo, ExportedClass, Method, PoolEntry, StaticField,
};
use cjc_check_index::bytes::Row;

/// What a package imports: another of the group by its number, or one outside by the number of its export file.
#[derive(Clone, Copy)]
pub enum Import {
    OfGroup(u32),
    OfFile(u32),
}

/// The components of a package that are looked into when it runs, and names.
#[derive(Clone, Copy)]
pub struct Part<'a> {
    pub method: &'a Method,
    pub pool: &'a [PoolEntry],
    pub class: &'a ClassInfo,
    pub descriptor: &'a [ClassDescriptor],
    pub exports: &'a [ExportedClass],
    pub statics: &'a StaticField,
    /// One for each class info, interfaces first.
    pub classes: &'a [ClassNames],
    /// In the order of a report.
    pub cells: &'a [CellName],
}

/// A package of a group, with what it imports, by package token.
#[derive(Drop)]
pub struct GroupPart<'a> {
    pub part: Part<'a>,
    pub imports: Row<Import>,
}
