//! All classes of a package and of its export files, by name, by number and by place. Nothing here takes memory
//! but `new`.

ghost use Rattle.std.specs.Prelude.{◌≡◌, length, slice_get, option_map, IfSome, IfOk, MatchOption, None, Some};
ghost use Rattle.cjc_world.specs.Classes.{Class, all_classes, class_at, class_named};
ghost use Rattle.cjc_world.specs.Working.Places.{place_named};
ghost use Rattle.cjc_world.specs.Supertypes.{supertypes_within, is_below, supertypes, upwards, stands, stands_above};
ghost use Rattle.cjc_world.specs.Files.{files_of};
ghost use Rattle.std.specs.List.{list_any};
ghost use Rattle.std.specs.Str.{bytes_eq};
ghost use Rattle.cjc_world.specs.Interfaces.{gathered, known};
ghost use Rattle.cjc_world.specs.Rules.{members};
ghost use Rattle.cjc_world.specs.Working.Known.{class_of};
ghost use Rattle.cjc_world.specs.Working.Members.{IsMemberIndex};
ghost use Rattle.cjc_world.specs.Working.Numbers.{IsListed};
ghost use Rattle.cjc_world.specs.Working.Spots.{at, IsCounted, IsIndexed};
ghost use Rattle.cjc_world.specs.Subtype.{is_subclass};
ghost use Rattle.cjc_world.specs.Lookup.{first, own_field, own_method, field_in};

use crate::class::Known;
use crate::found::Found;
use crate::members::{MemberIndex, indices_of};
use crate::names::{Names, names_of};
use crate::numbers::{Numbers, numbers_of};
use crate::spot::{ClassPlace, index, known};
use cjc_bytes::{Bytes, FileLine, NoMemory, Row};
use cjc_classfile::ClassTree;
use cjc_export::ExportTree;
use std::alloc::Global;
use std::marker::Model;

/// A package with the export files that it stands on, before any rule is tested.
pub(crate) struct ClassIndex<'a> {
    package: Bytes,
    lines: Row<FileLine>,
    classes: Row<ClassTree<'a>>,
    exports: Row<ExportTree>,
    spots: Row<ClassPlace>,
    names: Names,
    numbers: Numbers,
    members: Row<MemberIndex>,
}

impl Drop for ClassIndex<'_> {
    fn drop(self) {
        let ClassIndex {
            package: _package,
            lines: _lines,
            classes: _classes,
            exports: _exports,
            spots: _spots,
            names: _names,
            numbers: _numbers,
            members: _members,
        } = self;
    }
}

impl<'a> Model for ClassIndex<'a> {
    ghost use Rattle.cjc_world.specs.Files.{Files};
    ghost use Rattle.cjc_world.specs.Working.Names.{IsClassIndex};

    ghost Value = { Files };

    ghost view = { λ w. record {
      package_name = w.package;
      lines = w.lines;
      classes = w.classes;
      exports = w.exports;
    } };

    ghost invariant = { λ w. IsClassIndex w.lines w.classes w.exports w.spots w.names w.numbers
        w.members };
}

impl<'a> ClassIndex<'a> {
    /// The files, with the classes in them found by place, by name and by number, and members by name and descriptor.
    pub(crate) fn new(
        alloc: Global,
        package_name: &[u8],
        lines: Row<FileLine>,
        classes: Row<ClassTree<'a>>,
        exports: Row<ExportTree>,
    ) -> Result<ClassIndex<'a>, NoMemory>
        ensures { IfOk result (λ r. r ≡ files_of package_name.now lines classes.entry exports) }
    {
        let spots = index(alloc, lines.items(), classes.items(), exports.items())?;
        let names = names_of(alloc, spots.items(), classes.items(), exports.items())?;
        let numbers = numbers_of(alloc, spots.items())?;
        let members = indices_of(alloc, spots.items(), classes.items(), exports.items())?;
        let package = Bytes::copy_of(alloc, package_name)?;
        Ok(ClassIndex {
            package,
            lines,
            classes,
            exports,
            spots,
            names,
            numbers,
            members,
        })
    }

    /// The class files, in list order.
    pub(crate) fn classes(&self) -> &Row<ClassTree<'a>>
        ensures { result.now ≡ self.now.classes }
    {
        &self.classes
    }

    /// The export files, in list order.
    pub(crate) fn exports(&self) -> &Row<ExportTree>
        ensures { result.now ≡ self.now.exports }
    {
        &self.exports
    }

    /// The lines of the list that name files.
    pub(crate) fn lines(&self) -> &Row<FileLine>
        ensures { result.now ≡ self.now.lines }
    {
        &self.lines
    }

    /// The package's name.
    pub(crate) fn package(&self) -> &[u8]
        ensures { result.now ≡ self.now.package_name }
    {
        self.package.items()
    }

    /// Where all classes stand, in the order of the list.
    pub(crate) fn spots(&self) -> &[ClassPlace]
        ensures { IsIndexed self.now.lines self.now.classes self.now.exports result.now }
    {
        self.spots.items()
    }

    /// The class that a spot means.
    fn at(&self, spot: &ClassPlace) -> Option<Known<'_, 'a>>
        ensures { option_map class_of result ≡ at self.now.classes self.now.exports spot.now }
    {
        known(self.classes.items(), self.exports.items(), spot)
    }

    /// The first class of a name, in the order of the list.
    pub(crate) fn class_named(&self, name: &[u8]) -> Option<Known<'_, 'a>>
        ensures named { option_map class_of result ≡ class_named (all_classes self.now) name.now }
        ensures counted { IfSome result (λ k. IsCounted (class_of k)) }
    {
        let place = self.place_named(name)?;
        self.class_in(place)
    }

    /// The class that a look-up means by its number: among the package's classes, or among those of all export files.
    pub(crate) fn class_at(&self, imported: bool, class: u32) -> Option<Known<'_, 'a>>
        ensures at { option_map class_of result ≡ class_at (all_classes self.now) imported class }
        ensures counted { IfSome result (λ k. IsCounted (class_of k)) }
    {
        let place = self.place_at(imported, class)?;
        self.class_in(place)
    }

    /// The place in the list of the class that a look-up means by its number.
    fn place_at(&self, imported: bool, class: u32) -> Option<u32>
        ensures { MatchOption result (class_at (all_classes self.now) imported class ≡ None)
            (λ p. slice_get (all_classes self.now) p ≡ class_at (all_classes self.now) imported class) }
    {
        self.numbers.get(imported, class)
    }

    /// How many classes there are.
    #[tactic(auto, unfolding(crate::specs::Classes::all_classes))]
    pub(crate) fn count(&self) -> u32
        ensures { result ≡ length (all_classes self.now) }
    {
        self.spots().len() as u32
    }

    /// The class at a place in the order of the list.
    pub(crate) fn class_in(&self, place: u32) -> Option<Known<'_, 'a>>
        ensures at { option_map class_of result ≡ slice_get (all_classes self.now) place }
        ensures counted { IfSome result (λ k. IsCounted (class_of k)) }
    {
        let spot = self.spots().get(place as usize)?;
        self.at(spot)
    }

    /// The place of the first class of a name.
    pub(crate) fn place_named(&self, name: &[u8]) -> Option<u32>
        ensures { result ≡ place_named (all_classes self.now) name.now }
    {
        self.names.get(name)
    }
    /// The places of the fields, or of the methods, of the class at a place, in the order of names and descriptors.
    pub(crate) fn members_in(&self, place: u32, field: bool) -> &[u32]
        ensures { (c : Class) → slice_get (all_classes self.now) place ≡ Some c
            → IsMemberIndex (members field c) result.now }
    {
        match self.members.items().get(place as usize) {
            Some(index) => index.places(field),
            None => &[],
        }
    }

    /// The same of a class that stands in the list.
    pub(crate) fn members_of(&self, class: Known<'_, 'a>, field: bool) -> &[u32]
        requires { IsListed (all_classes self.now) (class_of class) }
        ensures { IsMemberIndex (members field (class_of class.entry)) result.now }
    {
        match self.place_at(class.is_imported(), class.number()) {
            Some(place) => self.members_in(place, field),
            None => &[],
        }
    }
}
