//! What is kept of a package for all look-ups, and what is found in it at once: classes, their supers and their names.

ghost use Rattle.std.specs.Prelude.{◌≡◌, ◌<◌, ◌+◌, ◌^◌, map, option_map, slice_get, length};
ghost use Rattle.std.specs.Prelude.{IfOk, IfSome, OnOk};
ghost use Rattle.std.specs.List.{AllByRecursion};
ghost use Rattle.std.specs.Option.{option_copied};
ghost use Rattle.cjc_card_semantics.specs.Machine.Classes.{class_of as class_by_ref, external, external_named, info_of};
ghost use Rattle.cjc_card_semantics.specs.Machine.Classes.{import_of as import_by, imported_class, info_count};
ghost use Rattle.cjc_card_semantics.specs.Machine.Classes.{superclass};
ghost use Rattle.cjc_card_semantics.specs.Machine.Loaded.{OfFile, OfGroup};
ghost use Rattle.cjc_check_index.specs.CheckRules.Complete.{class_info_size};
ghost use Rattle.cjc_card_frame.specs.Objects.{class_of};
ghost use Rattle.cjc_card_link.specs.Group.{alone, files_from, group_of, group_part, import_of};
ghost use Rattle.cjc_card_link.specs.Infos.{info_by};
ghost use Rattle.cjc_card_link.specs.Tables.{AreKept, loaded_of};

use crate::exported::Exported;
use crate::infos::Info;
use crate::package::Package;
use crate::part::{GroupPart, Import, Part};
use cjc_card_frame::heap::Class;
use cjc_card_semantics::capread::ClassRef;
use cjc_card_semantics::export_file::{ExportClass, ExportTree};
use cjc_check_index::bytes::{NoMemory, Row};
use std::alloc::Global;

// More export files, and more classes, than there are.
const TOO_MANY: usize = 1 << 32;

/// Packages, the export files that they import, and tables made once.
pub struct Tables<'a> {
    pub(crate) packages: Row<Package<'a>>,
    pub(crate) exported: Exported<'a>,
    /// How many classes and interfaces the packages have.
    pub(crate) count: u32,
}

impl Drop for Tables<'_> {
    fn drop(self) {
        let Tables {
            packages: _packages,
            exported: _exported,
            count: _count,
        } = self;
    }
}

// So many export files by their numbers.
fn files_from(alloc: Global, count: usize) -> Result<Row<Import>, NoMemory>
    requires { count < 2 ^ 32 }
    ensures { IfOk result (λ imports. map import_of imports ≡ files_from 0 count) }
{
    let mut imports = Row::new(alloc);
    for number in 0..count {
        imports.push(Import::OfFile(number as u32))?;
    }
    Ok(imports)
}

// The classes of export files. No memory is there for 2^32 of these.
fn exported_of<'a>(alloc: Global, trees: &'a [ExportTree]) -> Result<Exported<'a>, NoMemory>
    ensures { IfOk result (λ e. e ≡ trees.now) }
{
    if trees.len() >= TOO_MANY {
        return Err(NoMemory);
    }
    Exported::new(alloc, trees)
}

// How many classes and interfaces packages have. No memory is there for 2^32 packages, nor for 2^32 - 2 of their
// classes and interfaces.
fn count_of(packages: &[Package<'_>]) -> Result<u32, NoMemory>
    ensures few { OnOk result (length packages.now < 2 ^ 32) }
    ensures count { IfOk result (λ n. n ≡ info_count packages.now) }
    ensures small { IfOk result (λ n. n + 2 < 2 ^ 32) }
{
    if packages.len() >= TOO_MANY {
        return Err(NoMemory);
    }
    let mut count: usize = 0;
    for package in packages {
        let own = package.count();
        if own >= TOO_MANY - 2 - count {
            return Err(NoMemory);
        }
        count += own;
    }
    Ok(count as u32)
}

// The tables of a package of a group.
fn package_of<'a>(alloc: Global, part: GroupPart<'a>) -> Result<Package<'a>, NoMemory>
    requires { class_info_size part.part.class.now < 2 ^ 32 }
    ensures { IfOk result (λ p. p ≡ group_part part.entry) }
{
    let GroupPart { part, imports } = part;
    let package = Package::new(alloc, part, imports)?;
    Ok(package)
}

// Those of the packages of a group.
fn packages_of<'a>(alloc: Global, parts: Row<GroupPart<'a>>) -> Result<Row<Package<'a>>, NoMemory>
    requires { AllByRecursion (λ p. class_info_size p.part.class.now < 2 ^ 32) parts }
    ensures { IfOk result (λ packages. packages ≡ map group_part parts.entry) }
{
    let mut packages = Row::new(alloc);
    for part in parts.into_vec() {
        let package = package_of(alloc, part)?;
        packages.push(package)?;
    }
    Ok(packages)
}

impl<'a> Tables<'a> {
    // The tables over packages and over the export files of what is outside.
    fn over(
        alloc: Global,
        packages: Row<Package<'a>>,
        trees: &'a [ExportTree],
    ) -> Result<Tables<'a>, NoMemory>
        ensures kept { IfOk result (λ t. AreKept t) }
        ensures of { IfOk result (λ t. loaded_of t ≡ record { parts = packages.entry; trees = trees.now }) }
    {
        let exported = exported_of(alloc, trees)?;
        let count = count_of(packages.items())?;
        Ok(Tables {
            packages,
            exported,
            count,
        })
    }

    /// The tables of a package and of the export files that it imports, in the order of Import.
    pub fn new(
        alloc: Global,
        part: Part<'a>,
        trees: &'a [ExportTree],
    ) -> Result<Tables<'a>, NoMemory>
        requires { class_info_size part.class.now < 2 ^ 32 }
        ensures kept { IfOk result (λ t. AreKept t) }
        ensures of { IfOk result (λ t. loaded_of t ≡ alone part.entry trees.now) }
    {
        if trees.len() >= TOO_MANY {
            return Err(NoMemory);
        }
        let imports = files_from(alloc, trees.len())?;
        let package = Package::new(alloc, part, imports)?;
        let mut packages = Row::new(alloc);
        packages.push(package)?;
        let tables = Tables::over(alloc, packages, trees)?;
        Ok(tables)
    }

    /// The tables of packages, and of the export files of what is outside.
    pub fn of_group(
        alloc: Global,
        parts: Row<GroupPart<'a>>,
        trees: &'a [ExportTree],
    ) -> Result<Tables<'a>, NoMemory>
        requires { AllByRecursion (λ p. class_info_size p.part.class.now < 2 ^ 32) parts }
        ensures kept { IfOk result (λ t. AreKept t) }
        ensures of { IfOk result (λ t. loaded_of t ≡ group_of parts.entry trees.now) }
    {
        let packages = packages_of(alloc, parts)?;
        let tables = Tables::over(alloc, packages, trees)?;
        Ok(tables)
    }

    /// A package by its number.
    pub(crate) fn package(&self, part: u32) -> Option<&Package<'a>>
        ensures { option_map (λ p. p.now) result ≡ slice_get (loaded_of self.now).parts part }
    {
        self.packages.items().get(part as usize)
    }

    /// The info at an offset of a package.
    pub(crate) fn info(&self, part: u32, offset: u64) -> Option<Info<'a>>
        requires { AreKept self.now }
        ensures at { option_map info_by result ≡ info_of (loaded_of self.now) part offset }
        ensures small { IfSome result (λ i. offset < 2 ^ 32) }
    {
        match self.package(part) {
            Some(package) => package.info(offset),
            None => None,
        }
    }

    /// The class of an export file by its token.
    pub fn external(&self, tree: u32, token: u8) -> Option<&'a ExportClass>
        ensures { option_copied result ≡ external (loaded_of self.now) tree token }
    {
        self.exported.class(tree, token)
    }

    /// The first class of a name in the export files.
    pub fn external_named(&self, name: &[u8]) -> Option<Class>
        ensures { option_map class_of result ≡ external_named (loaded_of self.now) name.now }
    {
        self.exported.named(name)
    }

    // The class of a package at an offset, where there is one.
    fn own_class(&self, part: u32, offset: u64) -> Option<Class>
        requires { AreKept self.now }
        ensures { option_map class_of result ≡ class_by_ref (loaded_of self.now) part (ClassRef.Inside offset) }
    {
        match self.info(part, offset) {
            Some(_) => Some(Class::Own(part, offset as u32)),
            None => None,
        }
    }

    // The class that a package of the group exports under a token.
    fn exported_class(&self, part: u32, token: u8) -> Option<Class>
        requires { AreKept self.now }
        ensures { option_map class_of result ≡ imported_class (loaded_of self.now) token (OfGroup part) }
    {
        match self.package(part) {
            Some(package) => match package.exported(token) {
                Some(class) => self.own_class(part, class.class_offset),
                None => None,
            },
            None => None,
        }
    }

    // The class that an export file lists under a token.
    fn file_class(&self, tree: u32, token: u8) -> Option<Class>
        ensures { option_map class_of result ≡ imported_class (loaded_of self.now) token (OfFile tree) }
    {
        match self.external(tree, token) {
            Some(_) => Some(Class::External(tree, token)),
            None => None,
        }
    }

    // The class of a token through an import, where there is one.
    fn imported_class(&self, token: u8, import: Import) -> Option<Class>
        requires { AreKept self.now }
        ensures { option_map class_of result ≡ imported_class (loaded_of self.now) token (import_of import) }
    {
        match import {
            Import::OfFile(tree) => self.file_class(tree, token),
            Import::OfGroup(part) => self.exported_class(part, token),
        }
    }

    /// What a package token means in a package.
    pub(crate) fn import(&self, part: u32, token: u32) -> Option<Import>
        ensures { option_map import_of result ≡ import_by (loaded_of self.now) part token }
    {
        match self.package(part) {
            Some(importing) => importing.import(token),
            None => None,
        }
    }

    /// The class of two tokens, seen from a package, where there is one.
    pub fn class_outside(&self, part: u32, import: u32, token: u8) -> Option<Class>
        requires { AreKept self.now }
        ensures { option_map class_of result ≡ class_by_ref (loaded_of self.now) part (ClassRef.Outside import token) }
    {
        match self.import(part, import) {
            Some(import) => self.imported_class(token, import),
            None => None,
        }
    }

    /// The class of a class_ref of a package, where there is one.
    pub fn class_in(&self, part: u32, class: ClassRef) -> Option<Class>
        requires { AreKept self.now }
        ensures { option_map class_of result ≡ class_by_ref (loaded_of self.now) part class }
    {
        match class {
            ClassRef::Inside(offset) => self.own_class(part, offset),
            ClassRef::Outside { package, class } => {
                self.class_outside(part, u32::from(package), class)
            }
        }
    }

    /// The superclass of a class of a package.
    pub fn superclass(&self, part: u32, offset: u32) -> Option<Class>
        requires { AreKept self.now }
        ensures { option_map class_of result ≡ superclass (loaded_of self.now) part offset }
    {
        match self.info(part, u64::from(offset)) {
            Some(Info::IsClass(class)) => self.class_in(part, class.superclass),
            Some(Info::IsInterface(_)) => None,
            None => None,
        }
    }
}
