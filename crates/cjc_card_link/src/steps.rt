//! How many steps reach all that stands above a class: each class is looked at once, and each that it lists.

ghost use Rattle.std.specs.Prelude.{◌≡◌, ◌+◌, map, IfOk};
ghost use Rattle.cjc_card_semantics.specs.Machine.Classes.{IsClass, IsInterface, class_steps, info_steps, steps};
ghost use Rattle.cjc_card_semantics.specs.Machine.Classes.{part_steps, tree_steps};
ghost use Rattle.cjc_card_link.specs.Infos.{infos_in};
ghost use Rattle.cjc_card_link.specs.Tables.{AreKept, loaded_of};

use crate::package::Package;
use crate::tables::Tables;
use cjc_card_semantics::capread::{ClassEntry, ClassInfo, InterfaceEntry};
use cjc_card_semantics::export_file::{ExportClass, ExportTree};
use cjc_check_index::bytes::NoMemory;

// No memory is there for 2^64 steps.
fn sum(a: u64, b: u64) -> Result<u64, NoMemory>
    ensures { IfOk result (λ n. n ≡ a + b) }
{
    match a.checked_add(b) {
        Some(n) => Ok(n),
        None => Err(NoMemory),
    }
}

// Those of interfaces.
fn interface_steps(entries: &[InterfaceEntry]) -> Result<u64, NoMemory>
    ensures { IfOk result (λ n. n ≡ info_steps (map IsInterface entries.now)) }
{
    let mut steps = 0;
    for entry in entries {
        steps = sum(steps, 2 + entry.superinterfaces.items().len() as u64)?;
    }
    Ok(steps)
}

// Those of classes.
fn entry_steps(entries: &[ClassEntry]) -> Result<u64, NoMemory>
    ensures { IfOk result (λ n. n ≡ info_steps (map IsClass entries.now)) }
{
    let mut steps = 0;
    for entry in entries {
        steps = sum(steps, 3 + entry.interfaces.items().len() as u64)?;
    }
    Ok(steps)
}

// Those of the infos of a package.
fn infos_steps(class: &ClassInfo) -> Result<u64, NoMemory>
    ensures { IfOk result (λ n. n ≡ info_steps (infos_in class.now)) }
{
    let interfaces = interface_steps(class.interfaces.items())?;
    let classes = entry_steps(class.classes.items())?;
    sum(interfaces, classes)
}

// Those of the classes of an export file.
fn class_steps(classes: &[ExportClass]) -> Result<u64, NoMemory>
    ensures { IfOk result (λ n. n ≡ class_steps classes.now) }
{
    let mut steps = 0;
    for class in classes {
        let listed = class.supers.items().len() as u64 + class.interfaces.items().len() as u64;
        steps = sum(steps, 1 + listed)?;
    }
    Ok(steps)
}

// Those of export files.
fn tree_steps(trees: &[ExportTree]) -> Result<u64, NoMemory>
    ensures { IfOk result (λ n. n ≡ tree_steps trees.now) }
{
    let mut steps = 0;
    for tree in trees {
        steps = sum(steps, class_steps(tree.classes.items())?)?;
    }
    Ok(steps)
}

// Those of packages.
fn part_steps(packages: &[Package<'_>]) -> Result<u64, NoMemory>
    ensures { IfOk result (λ n. n ≡ part_steps packages.now) }
{
    let mut steps = 0;
    for package in packages {
        steps = sum(steps, infos_steps(package.class())?)?;
    }
    Ok(steps)
}

impl<'a> Tables<'a> {
    /// The steps that reach all that stands above any class.
    pub fn steps(&self) -> Result<u64, NoMemory>
        requires { AreKept self.now }
        ensures { IfOk result (λ n. n ≡ steps (loaded_of self.now)) }
    {
        let own = part_steps(self.packages.items())?;
        let listed = tree_steps(self.exported.trees())?;
        sum(sum(own, listed)?, 2)
    }
}
