//! What is kept for one export file: under the token of each class the class and what stands above it. Called
//! by `files`.

ghost use Rattle.std.specs.Prelude.{◌≡◌, ◌==◌, ℕ, [], Some, None, OnOk, if◌then◌else◌};
ghost use Rattle.cjc_card_semantics.specs.Machine.Classes.{or_else};
ghost use Rattle.cjc_card_calls.specs.Files.Files.{classes_at, line_in, row_under};

use cjc_card_semantics::bytes::{NoMemory, Row};
use cjc_card_semantics::export_file::ExportClass;
use std::alloc::Global;
use std::collections::HashMap;

/// Of the classes of an export file, by their tokens, each and what stands above it.
#[derive(Drop)]
pub(crate) struct File<'a> {
    kept: HashMap<u8, Row<&'a ExportClass>>,
    nothing: Row<&'a ExportClass>,
}

impl<'a> File<'a> {
    /// Nothing yet.
    pub(crate) fn new(alloc: Global) -> File<'a>
        ensures kept { (x : ℕ) → row_under result x ≡ None }
        ensures nothing { result.nothing ≡ [] }
    {
        File {
            kept: HashMap::new(alloc),
            nothing: Row::new(alloc),
        }
    }

    /// Keeps a line under a token under which none is kept.
    pub(crate) fn note(&mut self, token: u8, line: Row<&'a ExportClass>) -> Result<(), NoMemory>
        ensures kept { OnOk result ((x : ℕ) → row_under self.new x ≡ or_else (row_under self.old x) (if token == x
            then Some line.entry else None)) }
        ensures nothing { OnOk result (self.new.nothing ≡ self.old.nothing) }
    {
        if self.kept.get(&token).is_some() {
            return Ok(());
        }
        self.kept.insert(token, line)?;
        Ok(())
    }

    /// What is kept under a token.
    pub(crate) fn line(&self, token: u8) -> &[&'a ExportClass]
        ensures { classes_at result.now ≡ line_in self.now token }
    {
        self.kept.get(&token).unwrap_or(&self.nothing).items()
    }
}
