//! The classes of all export files by name, in one map, for the walks upwards that follow listed names. Called
//! by `files` and `upwards`.

ghost use Rattle.std.specs.Prelude.{◌≡◌, ℕ, List, Some, None, IfOk, OnOk, if◌then◌else◌};
ghost use Rattle.std.specs.Option.{option_copied};
ghost use Rattle.std.specs.Str.{bytes_eq};
ghost use Rattle.cjc_card_semantics.specs.ExportFile.Supers.{class_named, classes_of, super_count};
ghost use Rattle.cjc_card_semantics.specs.Machine.Classes.{or_else};
ghost use Rattle.cjc_card_calls.specs.Files.Named.{class_under};

use crate::files::steps::super_count;
use cjc_card_link::Name;
use cjc_card_semantics::bytes::NoMemory;
use cjc_card_semantics::export_file::{ExportClass, ExportTree};
use std::alloc::Global;
use std::collections::HashMap;
use std::marker::Model;

/// Classes under their names.
#[derive(Drop)]
pub(crate) struct ByName<'a> {
    kept: HashMap<Name<'a>, &'a ExportClass>,
}

impl<'a> ByName<'a> {
    // Nothing yet.
    fn empty(alloc: Global) -> ByName<'a>
        ensures { (x : List ℕ) → class_under result x ≡ None }
    {
        ByName {
            kept: HashMap::new(alloc),
        }
    }

    // Keeps a class under its name, where none is kept.
    fn keep(&mut self, class: &'a ExportClass) -> Result<(), NoMemory>
        ensures { OnOk result ((x : List ℕ) → class_under self.new x ≡ or_else (class_under self.old x)
            (if bytes_eq class.now.name x then Some class.now else None)) }
    {
        let name = class.name.items();
        match self.kept.get(&Name { bytes: name }) {
            Some(_) => Ok(()),
            None => {
                self.kept.insert(Name { bytes: name }, class)?;
                Ok(())
            }
        }
    }

    // Keeps the classes of an export file under their names.
    fn keep_all(&mut self, classes: &'a [ExportClass]) -> Result<(), NoMemory>
        ensures { OnOk result ((x : List ℕ) → class_under self.new x ≡ or_else (class_under self.old x)
            (class_named classes.now x)) }
    {
        for class in classes {
            self.keep(class)?;
        }
        Ok(())
    }

    /// The class of a name.
    fn get(&self, name: &[u8]) -> Option<&'a ExportClass>
        ensures { option_copied result ≡ class_under self.now name.now }
    {
        self.kept.get(&Name { bytes: name }).copied()
    }
}

// The classes of export files under their names.
fn by_name<'a>(alloc: Global, trees: &'a [ExportTree]) -> Result<ByName<'a>, NoMemory>
    ensures { IfOk result (λ names. (x : List ℕ) → class_under names x ≡ class_named (classes_of trees.now) x) }
{
    let mut names = ByName::empty(alloc);
    for tree in trees {
        names.keep_all(tree.classes.items())?;
    }
    Ok(names)
}

/// The classes of export files, file by file.
#[derive(Drop)]
pub(crate) struct Named<'a> {
    trees: &'a [ExportTree],
    names: ByName<'a>,
    /// How many supers they list in all.
    supers: u64,
}

impl<'a> Model for Named<'a> {
    ghost use Rattle.std.specs.Prelude.{List};
    ghost use Rattle.cjc_card_semantics.specs.ExportFile.declared.tree.ExportClass.{ExportClass as Class};
    ghost use Rattle.cjc_card_semantics.specs.ExportFile.Supers.{classes_of};
    ghost use Rattle.cjc_card_calls.specs.Files.Named.{AreNamed};

    ghost Value = { List Class };

    ghost view = { λ n. classes_of n.trees.now };

    ghost invariant = { λ n. AreNamed (classes_of n.trees.now) n.names n.supers };
}

impl<'a> Named<'a> {
    /// Those of these export files.
    pub(crate) fn new(alloc: Global, trees: &'a [ExportTree]) -> Result<Named<'a>, NoMemory>
        ensures { IfOk result (λ names. names ≡ classes_of trees.now) }
    {
        let names = by_name(alloc, trees)?;
        let supers = super_count(trees)?;
        Ok(Named {
            trees,
            names,
            supers,
        })
    }

    /// The first class of a name.
    pub(crate) fn class(&self, name: &[u8]) -> Option<&'a ExportClass>
        ensures { option_copied result ≡ class_named self.now name.now }
    {
        self.names.get(name)
    }

    /// How many supers they list in all.
    pub(crate) fn super_count(&self) -> u64
        ensures { result ≡ super_count self.now }
    {
        self.supers
    }
}
