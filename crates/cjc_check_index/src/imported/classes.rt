//! The classes of all export files one behind the other, and each by its name. Called by `graph` and `tokens`.

ghost use Rattle.std.specs.Prelude.{◌≡◌, ◌++◌, IfOk, OnOk};
ghost use Rattle.std.specs.Str.{bytes_eq};
ghost use Rattle.std.specs.Cmp.{partial_equiv_from_equiv};
ghost use Rattle.cjc_check_rules.specs.ExportFile.Supers.{classes_of};
ghost use Rattle.cjc_check_index.specs.Imported.Tokens.{file_starts};
ghost use Rattle.cjc_check_index.specs.Imported.Working.Names.{HasPlace, IsIndex, fed, names-equivalence, same-fed};

use cjc_check_rules::bytes::{NoMemory, Row};
use cjc_check_rules::export_file::{ExportClass, ExportTree};
use indexmap::IndexMap;
use std::alloc::Global;
use std::hash::{Hash, Hasher};
use std::marker::Model;

/// A class of an export file.
#[derive(Drop)]
pub(crate) struct ImportedClass<'a> {
    pub(crate) class: &'a ExportClass,
}

impl<'a> Model for ImportedClass<'a> {
    ghost use Rattle.cjc_check_rules.specs.ExportFile.declared.tree.ExportClass.{ExportClass as Class};

    ghost Value = { Class };

    ghost view = { λ c. c.class.now };
}

/// The name of a class.
#[derive(Drop)]
pub(crate) struct Name<'a> {
    pub(crate) bytes: &'a [u8],
}

impl<'a> Model for Name<'a> {
    ghost use Rattle.std.specs.Prelude.{ℕ, List};

    ghost Value = { List ℕ };

    ghost view = { λ n. n.bytes.now };
}

impl<'a> PartialEq for Name<'a> {
    ghost eq = { bytes_eq };

    ghost laws = { partial_equiv_from_equiv names-equivalence };

    fn eq(&self, other: &Name<'a>) -> bool {
        self.bytes == other.bytes
    }
}

impl<'a> Eq for Name<'a> {
    ghost laws = { names-equivalence };
}

impl<'a> Hash for Name<'a> {
    ghost hash_input = { fed };

    ghost respects_eq = { same-fed };

    fn hash<H: Hasher>(&self, state: &mut H) {
        self.bytes.hash(state)
    }
}

/// Puts classes at the end.
fn put_classes<'a>(
    all: &mut Row<ImportedClass<'a>>,
    classes: &'a [ExportClass],
) -> Result<(), NoMemory>
    ensures { OnOk result (all.new ≡ all.old ++ classes.now) }
{
    for class in classes {
        all.push(ImportedClass { class })?;
    }
    Ok(())
}

/// The classes of all export files, file by file.
#[derive(Drop)]
pub(crate) struct Classes<'a> {
    pub(crate) all: Row<ImportedClass<'a>>,
    /// Where the classes of each file begin.
    pub(crate) starts: Row<usize>,
}

/// The classes of all export files, and where those of each begin.
pub(crate) fn all_classes<'a>(
    alloc: Global,
    exports: &'a [ExportTree],
) -> Result<Classes<'a>, NoMemory>
    ensures all { IfOk result (λ c. c.all ≡ classes_of exports.now) }
    ensures starts { IfOk result (λ c. c.starts ≡ file_starts 0 exports.now) }
{
    let mut all = Row::new(alloc);
    let mut starts = Row::new(alloc);
    for tree in exports {
        starts.push(all.items().len())?;
        put_classes(&mut all, tree.classes.items())?;
    }
    Ok(Classes { all, starts })
}

/// The place of a name's first class, by name.
pub(crate) type Places<'a> = IndexMap<Name<'a>, usize>;

/// Puts the place of a class down at its name, unless the name has one.
fn put_place<'a>(places: &mut Places<'a>, name: &'a [u8], at: usize) -> Result<(), NoMemory>
    ensures { OnOk result (HasPlace places.old places.new name.now at) }
{
    if places.get(&Name { bytes: name }).is_none() {
        places.insert(Name { bytes: name }, at)?;
    }
    Ok(())
}

/// The places of the first classes of their names.
pub(crate) fn places_of<'a>(
    alloc: Global,
    classes: &[ImportedClass<'a>],
) -> Result<Places<'a>, NoMemory>
    ensures { IfOk result (λ places. IsIndex places classes.now) }
{
    let mut places = IndexMap::new(alloc);
    for (i, listed) in classes.iter().enumerate() {
        put_place(&mut places, listed.class.name.items(), i)?;
    }
    Ok(places)
}
