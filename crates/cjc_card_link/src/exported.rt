//! The classes of export files by their tokens and by their names (Java Card Virtual Machine Specification
//! 2.2.2, chapter 5).

ghost use Rattle.std.specs.Prelude.{◌≡◌, ◌<◌, ◌^◌, ℕ, List, length, option_map, if◌then◌else◌, Some, None, IfOk, OnOk};
ghost use Rattle.std.specs.Str.{bytes_eq};
ghost use Rattle.std.specs.Option.{option_copied};
ghost use Rattle.cjc_card_semantics.specs.Machine.Classes.{External, external_from, or_else, token_named, with_token};
ghost use Rattle.cjc_check_index.specs.Lookup.Indexed.{places_of};
ghost use Rattle.cjc_card_frame.specs.Objects.{class_of};
ghost use Rattle.cjc_card_link.specs.Exported.{exported_class};
ghost use Rattle.cjc_card_link.specs.Indices.{class_under};

use crate::indices::Classes;
use cjc_card_frame::heap::Class;
use cjc_card_semantics::export_file::{ExportClass, ExportTree};
use cjc_check_index::bytes::{NoMemory, Row};
use cjc_check_index::lookup::tokens_of;
use std::alloc::Global;
use std::marker::Model;

/// The classes of export files.
#[derive(Drop)]
pub(crate) struct Exported<'a> {
    trees: &'a [ExportTree],
    /// Of each file the places of its classes by token.
    tokens: Row<Row<Option<usize>>>,
    names: Classes<'a>,
}

impl<'a> Model for Exported<'a> {
    ghost use Rattle.std.specs.Prelude.{List};
    ghost use Rattle.cjc_card_semantics.specs.ExportFile.declared.tree.ExportTree.{ExportTree as Tree};
    ghost use Rattle.cjc_card_link.specs.Exported.{AreExported};

    ghost Value = { List Tree };

    ghost view = { λ e. e.trees.now };

    ghost invariant = { λ e. AreExported e.trees.now e.tokens e.names };
}

// Keeps a class of an export file under its name.
fn note_class<'a>(
    names: &mut Classes<'a>,
    tree: u32,
    class: &'a ExportClass,
) -> Result<(), NoMemory>
    ensures { OnOk result ((x : List ℕ) → class_under names.new x ≡ or_else (class_under names.old x)
        (if bytes_eq class.now.name x then Some (External tree class.now.token) else None)) }
{
    names.note(class.name.items(), Class::External(tree, class.token))?;
    Ok(())
}

// Keeps the classes of an export file under their names.
fn note_classes<'a>(
    names: &mut Classes<'a>,
    tree: u32,
    classes: &'a [ExportClass],
) -> Result<(), NoMemory>
    ensures { OnOk result ((x : List ℕ) → class_under names.new x ≡ or_else (class_under names.old x)
        (option_map (External tree) (token_named classes.now x))) }
{
    for class in classes {
        note_class(names, tree, class)?;
    }
    Ok(())
}

// Keeps the classes of the export file with a number.
fn note_tree<'a>(
    names: &mut Classes<'a>,
    number: usize,
    tree: &'a ExportTree,
) -> Result<(), NoMemory>
    requires { number < 2 ^ 32 }
    ensures { OnOk result ((x : List ℕ) → class_under names.new x ≡ or_else (class_under names.old x)
        (option_map (External number) (token_named tree.now.classes x))) }
{
    note_classes(names, number as u32, tree.classes.items())?;
    Ok(())
}

// The classes of all export files by their names.
fn names_of<'a>(alloc: Global, trees: &'a [ExportTree]) -> Result<Classes<'a>, NoMemory>
    requires { length trees.now < 2 ^ 32 }
    ensures { IfOk result (λ names. (x : List ℕ) → class_under names x ≡ external_from 0 trees.now x) }
{
    let mut names = Classes::new(alloc);
    let mut number = 0;
    for tree in trees {
        note_tree(&mut names, number, tree)?;
        number += 1;
    }
    Ok(names)
}

// The first class of a token, by the places of classes.
fn class_with<'a>(
    classes: &'a [ExportClass],
    places: &[Option<usize>],
    token: u8,
) -> Option<&'a ExportClass>
    requires { places.now ≡ places_of classes.now }
    ensures { option_copied result ≡ with_token classes.now token }
{
    let place = places[usize::from(token)];
    match place {
        Some(at) => {
            if at < classes.len() {
                Some(&classes[at])
            } else {
                None
            }
        }
        None => None,
    }
}

impl<'a> Exported<'a> {
    /// The classes of these export files.
    pub(crate) fn new(alloc: Global, trees: &'a [ExportTree]) -> Result<Exported<'a>, NoMemory>
        requires { length trees.now < 2 ^ 32 }
        ensures { IfOk result (λ e. e ≡ trees.now) }
    {
        let tokens = tokens_of(alloc, trees)?;
        let names = names_of(alloc, trees)?;
        Ok(Exported {
            trees,
            tokens,
            names,
        })
    }

    /// The export files.
    pub(crate) fn trees(&self) -> &'a [ExportTree]
        ensures { result.now ≡ self.now }
    {
        self.trees
    }

    /// The class of an export file by its token.
    pub(crate) fn class(&self, tree: u32, token: u8) -> Option<&'a ExportClass>
        ensures { option_copied result ≡ exported_class self.now tree token }
    {
        let tree = tree as usize;
        if tree >= self.trees.len() || tree >= self.tokens.items().len() {
            return None;
        }
        let classes = self.trees[tree].classes.items();
        class_with(classes, self.tokens.items()[tree].items(), token)
    }

    /// The first class of a name.
    pub(crate) fn named(&self, name: &[u8]) -> Option<Class>
        ensures { option_map class_of result ≡ external_from 0 self.now name.now }
    {
        self.names.get(name)
    }
}
