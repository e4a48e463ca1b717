//! `World`, the package with the export files that it stands on, once its rules are tested, and look-up of
//! classes, fields and methods in it. Nothing here takes memory but `new`.

ghost use Rattle.std.specs.Prelude.{◌≡◌, ◌<◌, [], ◌∷◌, ◌++◌, true, false, length, slice_get, option_map, IfSome, IfOk};
ghost use Rattle.std.specs.Prelude.{IfErr, OnOk, MatchOption};
ghost use Rattle.cjc_world.specs.Classes.{all_classes, class_at, class_named};
ghost use Rattle.cjc_world.specs.Files.{files_of};
ghost use Rattle.cjc_bytes.specs.Breaks.{IsFirstRefusal};
ghost use Rattle.cjc_world.specs.Rules.{breaks, has_cycle};
ghost use Rattle.cjc_world.specs.Added.{added_at};
ghost use Rattle.cjc_world.specs.Exported.{is_exported, is_imported, is_shareable};
ghost use Rattle.cjc_world.specs.Supertypes.{IsAcyclic, is_below, line, supertypes, once, upwards};
ghost use Rattle.cjc_world.specs.Interfaces.{each_once, gathered, has_interface, known};
ghost use Rattle.cjc_world.specs.Working.Known.{class_of};
ghost use Rattle.cjc_world.specs.Working.Places.{at_places, IsWalk};
ghost use Rattle.cjc_world.specs.Working.Spots.{IsCounted};
ghost use Rattle.cjc_world.specs.Subtype.{element, inner, is_element, is_subclass, is_subtype, starts};
ghost use Rattle.cjc_world.specs.Working.Tables.{IsTable};
ghost use Rattle.cjc_world.specs.Lookup.{find_field, find_method, method_of_interface, receiver, selected};

use crate::class::Known;
use crate::class_index::ClassIndex;
use crate::found::Found;
use crate::tables::Above;
use crate::unchecked::{Tables, UncheckedWorld};
use cjc_bytes::{Fault, FileLine, MemberId, NoMemory, Row, is_public};
use cjc_classfile::ClassTree;
use cjc_export::ExportTree;
use std::alloc::Global;
use std::marker::Model;

/// The class above all others.
pub(crate) const OBJECT: &[u8] = b"java/lang/Object";

const SHAREABLE: &[u8] = b"javacard/framework/Shareable";

/// A package with the export files that it stands on.
pub struct World<'a> {
    class_index: ClassIndex<'a>,
    tables: Tables,
}

impl Drop for World<'_> {
    fn drop(self) {
        let World {
            class_index: _class_index,
            tables: _tables,
        } = self;
    }
}

impl<'a> Model for World<'a> {
    ghost use Rattle.cjc_world.specs.Files.{Files};
    ghost use Rattle.cjc_world.specs.Working.Unchecked.{AreTables};

    ghost Value = { Files };

    ghost view = { λ w. w.class_index };

    ghost invariant = { λ w. AreTables w.class_index w.tables };
}

impl<'a> World<'a> {
    /// The world of a package: its name, the lines of its list that name files, and what the class files and the
    /// export files of these lines are, in list order. A refusal is the first of what is broken of the rules 201,
    /// 202, 203, 204, 207 and 208. The list's name is that of its own file.
    pub fn new(
        alloc: Global,
        list: &[u8],
        package_name: &[u8],
        lines: Row<FileLine>,
        classes: Row<ClassTree<'a>>,
        exports: Row<ExportTree>,
    ) -> Result<World<'a>, Fault>
        ensures made { IfOk result (λ w. w ≡ files_of package_name.now lines classes.entry exports) }
        ensures unbroken { OnOk result (breaks list.now (files_of package_name.now lines classes.entry exports) ≡ []) }
        ensures refused { IfErr result (IsFirstRefusal (breaks list.now (files_of package_name.now lines classes.entry
            exports))) }
    {
        let class_index = ClassIndex::new(alloc, package_name, lines, classes, exports)?;
        let unchecked = UncheckedWorld::new(alloc, class_index)?;
        if let Some(fault) = unchecked.first_fault(alloc, list) {
            return Err(fault);
        }
        let (class_index, tables) = unchecked.into_parts();
        Ok(World {
            class_index,
            tables,
        })
    }

    /// A world of files of which no rule is tested but that no class is its own super, such as those of packages that
    /// run together. None where a class is its own superclass or superinterface over steps.
    pub fn untested(
        alloc: Global,
        package_name: &[u8],
        lines: Row<FileLine>,
        classes: Row<ClassTree<'a>>,
        exports: Row<ExportTree>,
    ) -> Result<Option<World<'a>>, NoMemory>
        ensures { IfOk result (λ o. MatchOption o
            (has_cycle (all_classes (files_of package_name.now lines classes.entry exports)) ≡ true)
            (λ w. w ≡ files_of package_name.now lines classes.entry exports)) }
    {
        let class_index = ClassIndex::new(alloc, package_name, lines, classes, exports)?;
        let unchecked = UncheckedWorld::new(alloc, class_index)?;
        if unchecked.has_cycle() {
            return Ok(None);
        }
        let (class_index, tables) = unchecked.into_parts();
        Ok(Some(World {
            class_index,
            tables,
        }))
    }

    /// The class files, in list order.
    pub fn classes(&self) -> &Row<ClassTree<'a>>
        ensures { result.now ≡ self.now.classes }
    {
        self.class_index.classes()
    }

    /// The export files, in list order.
    pub fn exports(&self) -> &Row<ExportTree>
        ensures { result.now ≡ self.now.exports }
    {
        self.class_index.exports()
    }

    /// The lines of the list that name files.
    pub fn lines(&self) -> &Row<FileLine>
        ensures { result.now ≡ self.now.lines }
    {
        self.class_index.lines()
    }

    /// The package's name.
    pub fn package(&self) -> &[u8]
        ensures { result.now ≡ self.now.package_name }
    {
        self.class_index.package()
    }

    /// The first class of a name, in the order of the list.
    pub fn class_named(&self, name: &[u8]) -> Option<Known<'_, 'a>>
        ensures named { option_map class_of result ≡ class_named (all_classes self.now) name.now }
        ensures counted { IfSome result (λ k. IsCounted (class_of k)) }
    {
        self.class_index.class_named(name)
    }

    /// The class that a look-up means by its number: among the package's classes, or among those of all export files.
    pub fn class_at(&self, imported: bool, class: u32) -> Option<Known<'_, 'a>>
        ensures at { option_map class_of result ≡ class_at (all_classes self.now) imported class }
        ensures counted { IfSome result (λ k. IsCounted (class_of k)) }
    {
        self.class_index.class_at(imported, class)
    }

    /// The class at a place in the order of the list.
    pub fn class_in(&self, place: u32) -> Option<Known<'_, 'a>>
        ensures at { option_map class_of result ≡ slice_get (all_classes self.now) place }
        ensures counted { IfSome result (λ k. IsCounted (class_of k)) }
    {
        self.class_index.class_in(place)
    }

    /// The interfaces of a class that some file has, in order, each once, as places in the order of the list.
    pub fn interfaces(&self, alloc: Global, class: Known<'_, '_>) -> Result<Row<u32>, NoMemory>
        ensures { IfOk result (λ places. at_places (all_classes self.now) places
            ≡ known (each_once [] (gathered false (supertypes (all_classes self.now) (class_of class.entry).supers)
            ++ gathered true (supertypes (all_classes self.now) (class_of class.entry).interfaces)))) }
    {
        let places = self.class_index.interfaces(alloc, self.rows(), class)?;
        Ok(places)
    }

    /// The superclasses of a class going upwards, of an imported class the supers that its file lists in the order
    /// of the file, each once, as places in the order of the list.
    pub fn superclasses(&self, alloc: Global, class: Known<'_, '_>) -> Result<Row<u32>, NoMemory>
        ensures { IfOk result (λ places. at_places (all_classes self.now) places
            ≡ once [] (upwards (supertypes (all_classes self.now) (class_of class.entry).supers))) }
    {
        let places = self.class_index.line_above(alloc, self.rows(), class)?;
        Ok(places)
    }

    /// The methods that a class of the package gets from its interfaces, in their order, by the name of that class.
    pub fn added(&self, class: u32) -> &Row<MemberId>
        requires { class < length self.now.classes }
        ensures { result.now ≡ added_at self.now class }
    {
        &self.tables.added.items()[class as usize]
    }

    /// What stands above each class.
    fn rows(&self) -> &[Option<Above>]
        ensures { IsTable (all_classes self.now) result.now }
    {
        self.tables.above.items()
    }

    /// What holds of every world: no class is its own superclass or superinterface over steps. It is for proofs.
    pub fn acyclic(&self)
        ensures { IsAcyclic (all_classes self.now) }
    {
        self.rows();
    }

    /// The class of a name and its superclasses going upwards, as places in the order of the list, for a look-up that
    /// answers by the first of them.
    pub fn line_above(&self, class: &[u8]) -> &[u32]
        ensures { IsWalk (all_classes self.now) (line (all_classes self.now) class.now) result.now }
    {
        self.class_index.line_places(self.rows(), class)
    }

    /// The interfaces of the class of a name in their order, for a look-up that answers by the first of them.
    pub fn interfaces_above(&self, class: &[u8]) -> &[u32]
        ensures { IsWalk (all_classes self.now) (known (gathered false (supertypes (all_classes self.now)
            (class.now ∷ [])))) result.now }
    {
        self.class_index.interface_places(self.rows(), class)
    }

    /// Whether a class or interface is another or stands below it, over superclasses and superinterfaces.
    pub fn is_subclass(&self, sub: &[u8], sup: &[u8]) -> bool
        ensures { result ≡ is_subclass (all_classes self.now) sub.now sup.now }
    {
        self.class_index.is_subclass(self.rows(), sub, sup)
    }

    /// Whether a name is that of a class or of a superclass of it: the way up goes by superclasses, of an imported
    /// class by the supers that its file lists. A super that no file has is one too, and is below itself alone.
    pub fn is_below(&self, sub: &[u8], sup: &[u8]) -> bool
        ensures { result ≡ is_below (all_classes self.now) sub.now sup.now }
    {
        self.class_index.is_below(self.rows(), sub, sup)
    }

    /// Whether the class of a name, which some file has, is one of the interfaces of another.
    pub fn has_interface(&self, class: &[u8], interface: &[u8]) -> bool
        ensures { result ≡ has_interface (all_classes self.now) class.now interface.now }
    {
        self.class_index
            .has_interface(self.rows(), class, interface)
    }

    /// Whether elements of one type are of another. Both are descriptors.
    #[tactic(auto, using(crate::proofs::Subtypes::element_cases))]
    fn is_element(&self, sub: &[u8], sup: &[u8]) -> bool
        ensures { result ≡ is_element (all_classes self.now) sub.now sup.now }
    {
        if sub == sup {
            return true;
        }
        if starts(b'[', sub) {
            if starts(b'[', sup) {
                self.is_element(element(sub), element(sup))
            } else {
                starts(b'L', sup) && self.is_subclass(OBJECT, inner(sup))
            }
        } else {
            starts(b'L', sub) && starts(b'L', sup) && self.is_subclass(inner(sub), inner(sup))
        }
    }

    /// Whether a type is a subtype of another (Java Virtual Machine Specification, section 4.10.1.2). Both are given
    /// by the name of a class or interface, or by the descriptor of an array. A class is below what its file lists
    /// and java/lang/Object, over steps. An array is java/lang/Object and its supers, and follows the references that
    /// it has.
    #[tactic(auto, unfolding(crate::specs::Subtype::is_subtype))]
    pub fn subtype(&self, sub: &[u8], sup: &[u8]) -> bool
        ensures { result ≡ is_subtype (all_classes self.now) sub.now sup.now }
    {
        if starts(b'[', sub) {
            if starts(b'[', sup) {
                self.is_element(element(sub), element(sup))
            } else {
                self.is_subclass(OBJECT, sup)
            }
        } else {
            !starts(b'[', sup) && self.is_subclass(sub, sup)
        }
    }

    /// Whether an export file has the class of a name.
    pub fn is_imported(&self, name: &[u8]) -> bool
        ensures { result ≡ is_imported (class_named (all_classes self.now) name.now) }
    {
        match self.class_named(name) {
            None => false,
            Some(class) => class.is_imported(),
        }
    }

    fn is_shareable(&self, class: Known<'_, '_>) -> bool
        ensures { result ≡ is_shareable (all_classes self.now) (class_of class.entry) }
    {
        class.is_interface() && self.is_imported(SHAREABLE) && self.subtype(class.name(), SHAREABLE)
    }

    /// Whether other packages may name a class of the package, which has applets or none: a public class of a package
    /// without applets, or a public interface below javacard/framework/Shareable of an export file (Java Card Virtual
    /// Machine Specification 2.2.2, section 4.3.1).
    #[tactic(auto, unfolding(crate::specs::Exported::is_exported))]
    pub fn is_exported(&self, applets: bool, class: Known<'_, '_>) -> bool
        ensures { result ≡ is_exported (all_classes self.now) applets (class_of class.entry) }
    {
        is_public(class.flags()) && (!applets || self.is_shareable(class))
    }

    /// The field that is found by its class, name and descriptor: in the class, then in the same way in each
    /// interface that it lists, then in the same way in its superclass, or of an imported class in each super that
    /// its file lists (Java Virtual Machine Specification, section 5.4.3.2). None where there is none.
    pub fn find_field(&self, id: &MemberId) -> Option<Found>
        ensures { result ≡ find_field (all_classes self.now) id.now.class id.now.name id.now.desc }
    {
        self.find_field_from(id.class.items(), id)
    }

    /// The same from another class than the one that is named.
    pub fn find_field_from(&self, class: &[u8], id: &MemberId) -> Option<Found>
        ensures { result ≡ find_field (all_classes self.now) class.now id.now.name id.now.desc }
    {
        self.class_index
            .find_field(self.rows(), class, id.name.items(), id.desc.items())
    }

    /// The method that is found by its class, name and descriptor: in the class, then in its superclasses upwards,
    /// then in its interfaces in order (sections 5.4.3.3 and 5.4.3.4). None where there is none.
    pub fn find_method(&self, id: &MemberId) -> Option<Found>
        ensures { result ≡ find_method (all_classes self.now) id.now.class id.now.name id.now.desc }
    {
        self.class_index.find_method(
            self.rows(),
            id.class.items(),
            id.name.items(),
            id.desc.items(),
        )
    }

    /// The method of an interface: its own of this name and descriptor, else that of the first of its
    /// superinterfaces, in their order, that declares one. None where there is none.
    pub fn method_of_interface(&self, interface: &[u8], name: &[u8], desc: &[u8]) -> Option<Found>
        ensures { result ≡ method_of_interface (all_classes self.now) interface.now name.now desc.now }
    {
        self.class_index
            .method_of_interface(self.rows(), interface, name, desc)
    }

    /// The method that is selected on an object of a class: the first of this name and descriptor from the class
    /// upwards through its superclasses that is neither private nor static (section 6.5, invokevirtual). An array
    /// counts as java/lang/Object. None where there is none.
    #[tactic(auto, unfolding(crate::specs::Lookup::selected))]
    pub fn selected(&self, class: &[u8], id: &MemberId) -> Option<Found>
        ensures { result ≡ selected (all_classes self.now) class.now id.now.name id.now.desc }
    {
        self.class_index.method_above(
            self.rows(),
            true,
            receiver(class),
            id.name.items(),
            id.desc.items(),
        )
    }
}

/// The class whose methods an object of this class has.
fn receiver(class: &[u8]) -> &[u8]
    ensures { result.now ≡ receiver class.now }
{
    match class {
        [b'[', ..] => OBJECT,
        _ => class,
    }
}

fn starts(first: u8, bytes: &[u8]) -> bool
    ensures { result ≡ starts first bytes.now }
{
    match bytes {
        [] => false,
        [byte, ..] => *byte == first,
    }
}

/// What stands behind the first byte.
fn element(bytes: &[u8]) -> &[u8]
    ensures { result.now ≡ element bytes.now }
{
    match bytes {
        [] => bytes,
        [_, rest @ ..] => rest,
    }
}

/// What stands between the first byte and the last.
fn inner(bytes: &[u8]) -> &[u8]
    ensures { result.now ≡ inner bytes.now }
{
    match bytes {
        [] => bytes,
        [_, rest @ ..] => &rest[..rest.len().saturating_sub(1)],
    }
}
