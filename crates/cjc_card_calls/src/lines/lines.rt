//! `Lines`: under each class by token the class and what stands above it, put together once, so that a type
//! test or a handler takes no walk.

ghost use Rattle.std.specs.Prelude.{◌≡◌, ◌∷◌, [], map, option_map, if◌then◌else◌, Some, None, IfOk, OnOk};
ghost use Rattle.cjc_card_semantics.specs.Machine.Classes.{Class as ByToken, is_there, or_else, same_class, steps};
ghost use Rattle.cjc_card_semantics.specs.Machine.Classes.{upwards};
ghost use Rattle.cjc_card_semantics.specs.Machine.Loaded.{Loaded};
ghost use Rattle.cjc_card_frame.specs.Objects.{class_of};
ghost use Rattle.cjc_card_calls.specs.declared.lines.lines.Lines.{Lines as Kept};
ghost use Rattle.cjc_card_calls.specs.Lines.Lines.{AreLines, data_under, line_by, line_under};
ghost use Rattle.cjc_card_link.specs.Tables.{AreKept, loaded_of};

use crate::lines::every::every_class;
use cjc_card_frame::heap::Class;
use cjc_card_link::{Key, Tables};
use cjc_card_semantics::bytes::{NoMemory, Row};
use std::alloc::Global;
use std::collections::HashMap;

/// Under each class that is there, it and what stands above it.
#[derive(Drop)]
pub struct Lines {
    kept: HashMap<Key, Row<Class>>,
}

impl Lines {
    // Nothing yet.
    fn empty(alloc: Global) -> Lines
        ensures { (x : ByToken) → line_under result x ≡ None }
    {
        Lines {
            kept: HashMap::new(alloc),
        }
    }

    // Keeps a line under a class under which none is kept.
    fn keep(&mut self, class: Class, line: Row<Class>) -> Result<(), NoMemory>
        ensures { OnOk result ((x : ByToken) → data_under self.new x ≡ or_else (data_under self.old x)
            (if same_class (class_of class) x then Some line else None)) }
    {
        if self.kept.get(&Key { class }).is_some() {
            return Ok(());
        }
        self.kept.insert(Key { class }, line)?;
        Ok(())
    }

    // Keeps what stands above a class.
    fn note(
        &mut self,
        alloc: Global,
        tables: &Tables<'_>,
        count: u64,
        class: Class,
    ) -> Result<(), NoMemory>
        requires tables { AreKept tables.now }
        requires count { count ≡ steps (loaded_of tables.now) }
        ensures { OnOk result ((x : ByToken) → line_under self.new x ≡ or_else (line_under self.old x)
            (if same_class (class_of class) x then Some (upwards (loaded_of tables.now) x) else None)) }
    {
        let line = tables.upwards(alloc, count, class)?;
        self.keep(class, line)?;
        Ok(())
    }

    // Keeps what stands above some classes.
    fn note_all(
        &mut self,
        alloc: Global,
        tables: &Tables<'_>,
        count: u64,
        classes: &[Class],
    ) -> Result<(), NoMemory>
        requires tables { AreKept tables.now }
        requires count { count ≡ steps (loaded_of tables.now) }
        ensures { OnOk result ((x : ByToken) → line_under self.new x ≡ or_else (line_under self.old x)
            (line_by (loaded_of tables.now) (map class_of classes.now) x)) }
    {
        for class in classes {
            self.note(alloc, tables, count, *class)?;
        }
        Ok(())
    }

    /// What stands above all classes that are there.
    pub fn new(alloc: Global, tables: &Tables<'_>) -> Result<Lines, NoMemory>
        requires { AreKept tables.now }
        ensures { IfOk result (λ lines. AreLines (loaded_of tables.now) lines) }
    {
        let count = tables.steps()?;
        let classes = every_class(alloc, tables)?;
        let mut lines = Lines::empty(alloc);
        lines.note_all(alloc, tables, count, classes.items())?;
        Ok(lines)
    }

    /// What is kept under a class.
    pub fn line(&self, class: Class) -> Option<&[Class]>
        ensures { option_map (λ line. map class_of line.now) result ≡ line_under self.now (class_of class) }
    {
        match self.kept.get(&Key { class }) {
            Some(line) => Some(line.items()),
            None => None,
        }
    }
}

/// Nothing stands above a class of which nothing is kept.
pub fn nothing_above()
    ensures { (l : Loaded) (lines : Kept) (c : ByToken) → AreLines l lines → line_under lines c ≡ None
        → upwards l c ≡ c ∷ [] }
{}
