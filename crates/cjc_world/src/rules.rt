//! The rules of a world: 201, 202, 203, 204, 207 and 208. The first that is broken is
//! the first that is met, since files, classes and members are walked in the order of refusals.

ghost use Rattle.std.specs.Prelude.{◌≡◌, ◌<◌, ◌^◌, ◌+◌, ◌||◌, IfOk, length, slice_get, [], ◌∷◌, ◌++◌, not, option_map};
ghost use Rattle.cjc_bytes.specs.Told.{break_of, text_of};
ghost use Rattle.std.specs.List.{list_any, list_all};
ghost use Rattle.std.specs.Str.{bytes_eq};
ghost use Rattle.cjc_world.specs.Classes.{all_classes, class_named, numbered, of_class_file, of_export_file};
ghost use Rattle.cjc_bytes.specs.AccessFlags.{is_interface};
ghost use Rattle.cjc_world.specs.Working.Unchecked.{IsHeld};
ghost use Rattle.cjc_world.specs.Supertypes.{is_below, stands_above};
ghost use Rattle.cjc_world.specs.Working.Known.{class_of};
ghost use Rattle.cjc_world.specs.Working.Members.{IsMemberIndex};
ghost use Rattle.cjc_world.specs.Working.Numbers.{AreListed, IsListed};
ghost use Rattle.cjc_world.specs.Lookup.{object};
ghost use Rattle.cjc_world.specs.Rules.{breaks, breaks_from, class_breaks, class_file_breaks, classes_breaks};
ghost use Rattle.cjc_world.specs.Rules.{export_file_breaks, is_second_package, class_rules, is_earlier, member_rules};
ghost use Rattle.cjc_world.specs.Rules.{members, members_before, members_from, told, gets_missing, has_cycle};
ghost use Rattle.cjc_world.specs.Rules.{is_own_super_of};
ghost use Rattle.cjc_world.specs.Rules.{has_array_exceptions, has_class, has_exception, has_language, has_needed};
ghost use Rattle.cjc_world.specs.Rules.{has_other_exceptions, has_roots, head, is_class_of, is_desc_missing};
ghost use Rattle.cjc_world.specs.Rules.{is_element_missing, is_interface_of, is_missing, is_of_class_file};
ghost use Rattle.cjc_world.specs.Rules.{is_of_package, is_part, is_part_byte, is_second, is_slash_part};
ghost use Rattle.cjc_world.specs.Rules.{is_type_missing, lists_missing, lists_wrong, same_place, throwable};

use crate::class::Known;
use crate::class_index::ClassIndex;
use crate::members::first_called;
use crate::spot::{size, sum};
use crate::unchecked::UncheckedWorld;
use crate::world::OBJECT;
use cjc_bytes::{Break, Bytes, Desc, FileKey, MemberId, NoMemory, Part, PlaceRef, RulePlace};
use cjc_export::{ExportClass, ExportTree};

const LANGUAGE: &[u8] = b"java/lang";

/// The class that all exceptions are below.
pub(crate) const THROWABLE: &[u8] = b"java/lang/Throwable";

fn is_part_byte(byte: u8) -> bool
    ensures { result ≡ is_part_byte byte }
{
    matches!(byte, b'a'..=b'z' | b'A'..=b'Z' | b'0'..=b'9' | b'_' | b'$')
}

fn are_part_bytes(bytes: &[u8]) -> bool
    ensures { result ≡ list_all is_part_byte bytes.now }
{
    bytes.iter().all(|byte| is_part_byte(*byte))
}

/// Whether bytes are one part of a name: letters, digits, `_` and `$`.
fn is_part(bytes: &[u8]) -> bool
    ensures { result ≡ is_part bytes.now }
{
    !bytes.is_empty() && are_part_bytes(bytes)
}

fn is_slash_part(bytes: &[u8]) -> bool
    ensures { result ≡ is_slash_part bytes.now }
{
    match bytes {
        [] => false,
        [byte, rest @ ..] => *byte == b'/' && is_part(rest),
    }
}

fn is_of_package(package_name: &[u8], name: &[u8]) -> bool
    ensures { result ≡ is_of_package package_name.now name.now }
{
    if name.len() < package_name.len() {
        return false;
    }
    let (front, back) = name.split_at(package_name.len());
    front == package_name && is_slash_part(back)
}

fn same_place(class: Known<'_, '_>, other: Known<'_, '_>) -> bool
    ensures { result ≡ same_place (class_of class.entry) (class_of other.entry) }
{
    match (class, other) {
        (Known::Declared(number, _), Known::Declared(place, _)) => number == place,
        (Known::Imported(number, _), Known::Imported(place, _)) => number == place,
        _ => false,
    }
}

fn has_class(tree: &ExportTree, name: &[u8]) -> bool
    ensures { result ≡ has_class tree.now name.now }
{
    tree.classes.items().iter().any(|c| c.name.items() == name)
}

#[tactic(auto, unfolding(crate::specs::Rules::has_roots))]
fn has_roots(tree: &ExportTree) -> bool
    ensures { result ≡ has_roots tree.now }
{
    has_class(tree, OBJECT) && has_class(tree, THROWABLE)
}

impl<'a> ClassIndex<'a> {
    fn is_missing(&self, name: &[u8]) -> bool
        ensures { result ≡ is_missing (all_classes self.now) name.now }
    {
        match self.class_named(name) {
            Some(_) => false,
            None => true,
        }
    }

    fn any_missing(&self, names: &[Bytes]) -> bool
        ensures { result ≡ list_any (λ x. is_missing (all_classes self.now) x) names.now }
    {
        names.iter().any(|name| self.is_missing(name.items()))
    }

    /// Whether a super or an interface of the class is in no file.
    #[tactic(auto, unfolding(crate::specs::Rules::lists_missing))]
    fn lists_missing(&self, class: Known<'_, 'a>) -> bool
        ensures { result ≡ lists_missing (all_classes self.now) (class_of class.entry) }
    {
        self.any_missing(class.supers()) || self.any_missing(class.interfaces())
    }

    fn is_interface(&self, name: &[u8]) -> bool
        ensures { result ≡ is_interface_of (class_named (all_classes self.now) name.now) }
    {
        match self.class_named(name) {
            Some(class) => class.is_interface(),
            None => false,
        }
    }

    fn is_class(&self, name: &[u8]) -> bool
        ensures { result ≡ is_class_of (class_named (all_classes self.now) name.now) }
    {
        match self.class_named(name) {
            Some(class) => !class.is_interface(),
            None => false,
        }
    }

    fn is_declared(&self, name: &[u8]) -> bool
        ensures { result ≡ is_of_class_file (class_named (all_classes self.now) name.now) }
    {
        match self.class_named(name) {
            Some(class) => !class.is_imported(),
            None => false,
        }
    }

    fn any_interface(&self, names: &[Bytes]) -> bool
        ensures { result ≡ list_any (λ x. is_interface_of (class_named (all_classes self.now) x)) names.now }
    {
        names.iter().any(|name| self.is_interface(name.items()))
    }

    fn any_class(&self, names: &[Bytes]) -> bool
        ensures { result ≡ list_any (λ x. is_class_of (class_named (all_classes self.now) x)) names.now }
    {
        names.iter().any(|name| self.is_class(name.items()))
    }

    fn any_declared(&self, names: &[Bytes]) -> bool
        ensures { result ≡ list_any (λ x. is_of_class_file (class_named (all_classes self.now) x)) names.now }
    {
        names.iter().any(|name| self.is_declared(name.items()))
    }

    fn lists_declared(&self, class: Known<'_, 'a>) -> bool
        ensures { result ≡ (list_any (λ x. is_of_class_file (class_named (all_classes self.now) x))
            (class_of class.entry).supers || list_any (λ x. is_of_class_file (class_named (all_classes self.now) x))
            (class_of class.entry).interfaces) }
    {
        self.any_declared(class.supers()) || self.any_declared(class.interfaces())
    }

    /// Whether the class lists what it may not.
    #[tactic(auto, unfolding(crate::specs::Rules::lists_wrong))]
    fn lists_wrong(&self, class: Known<'_, 'a>) -> bool
        ensures { result ≡ lists_wrong (all_classes self.now) (class_of class.entry) }
    {
        if self.any_interface(class.supers()) {
            return true;
        }
        if self.any_class(class.interfaces()) {
            return true;
        }
        if class.is_interface() && any_not_object(class.supers()) {
            return true;
        }
        class.is_imported() && self.lists_declared(class)
    }

    /// Whether an earlier class has its name.
    #[tactic(auto, unfolding(crate::specs::Rules::is_second))]
    fn is_second(&self, class: Known<'_, 'a>) -> bool
        ensures { result ≡ is_second (all_classes self.now) (class_of class.entry) }
    {
        match self.class_named(class.name()) {
            Some(first) => !same_place(class, first),
            None => false,
        }
    }

    /// Behind `[` of an array's descriptor: whether the class of its elements is in no file.
    #[tactic(auto, unfolding(crate::specs::Rules::is_element_missing))]
    fn is_element_missing(&self, bytes: &[u8]) -> bool
        ensures { result ≡ is_element_missing (all_classes self.now) bytes.now }
    {
        match bytes {
            [] => false,
            [b'[', rest @ ..] => self.is_element_missing(rest),
            [byte, rest @ ..] => {
                *byte == b'L' && self.is_missing(&rest[..rest.len().saturating_sub(1)])
            }
        }
    }

    /// Whether the class that a type of a descriptor names is in no file.
    #[tactic(auto, unfolding(crate::specs::Rules::is_type_missing))]
    fn is_type_missing(&self, class: &[u8]) -> bool
        ensures { result ≡ is_type_missing (all_classes self.now) class.now }
    {
        match class {
            [] => false,
            [b'[', rest @ ..] => self.is_element_missing(rest),
            _ => self.is_missing(class),
        }
    }

    /// Whether a type of the descriptor names a class that is in no file.
    fn is_any_missing(&self, desc: &Desc<'_>) -> bool
        ensures { result ≡ list_any (λ p. is_type_missing (all_classes self.now) p.class) (desc.now.params
            ++ desc.now.result ∷ []) }
    {
        desc.types().any(|(_, class)| self.is_type_missing(class))
    }

    /// Whether a descriptor names a class that is in no file.
    #[tactic(auto, unfolding(crate::specs::Rules::is_desc_missing))]
    fn is_desc_missing(&self, desc: &[u8]) -> bool
        ensures { result ≡ is_desc_missing (all_classes self.now) desc.now }
    {
        if desc.len() >= 0x1_0000_0000 {
            return false;
        }
        match Desc::parse(desc) {
            Ok(desc) => self.is_any_missing(&desc),
            Err(_) => false,
        }
    }

    /// The first rule that a field or method of a class breaks, by the index of these.
    #[tactic(auto, unfolding(crate::specs::Rules::member_rules, crate::specs::Rules::is_twice, crate::specs::Rules::head))]
    fn member_rule(
        &self,
        class: Known<'_, 'a>,
        field: bool,
        places: &[u32],
        place: usize,
        name: &[u8],
        desc: &[u8],
    ) -> Option<u16>
        requires { IsMemberIndex (members field (class_of class)) places.now }
        ensures { result ≡ head (member_rules (all_classes self.now) (class_of class.entry)
            (members field (class_of class.entry)) place name.now desc.now) }
    {
        if is_earlier(first_called(class, field, places, false, name, desc), place) {
            Some(202)
        } else if !class.is_imported() && self.is_desc_missing(desc) {
            Some(203)
        } else {
            None
        }
    }

    /// The first rule that a field, or a method, of a class breaks.
    fn member_break<'w>(
        &'w self,
        file: FileKey,
        file_name: &'w [u8],
        class: usize,
        known: Known<'w, 'a>,
        field: bool,
    ) -> Option<Break<'w>>
        requires { IsListed (all_classes self.now) (class_of known) }
        ensures { option_map break_of result ≡ head (members_from file file_name.now class (all_classes self.now)
            (class_of known.entry) field 0 (members field (class_of known.entry))) }
    {
        let places = self.members_of(known, field);
        for place in 0..known.member_count(field) {
            let (name, desc) = known.member_at(field, place);
            if let Some(rule) = self.member_rule(known, field, places, place, name, desc) {
                return Some(Break {
                    rule,
                    spot: RulePlace {
                        file,
                        class,
                        member: member_number(known, field, place),
                        place: PlaceRef {
                            file: file_name,
                            class: known.name(),
                            part: part(field, name, desc),
                            offset: 0,
                        },
                    },
                });
            }
        }
        None
    }

    /// Whether the package of an export file stands in an earlier one, or is the package itself.
    #[tactic(auto, unfolding(crate::specs::Rules::is_second_package))]
    fn is_second_package(&self, place: u32, tree: &ExportTree) -> bool
        requires { place < length self.now.exports }
        ensures { result ≡ is_second_package self.now place tree.now }
    {
        tree.name.items() == self.package()
            || has_tree(&self.exports().items()[..place as usize], tree.name.items())
    }
}

fn any_desc_missing<'w>(class_index: &ClassIndex<'w>, ids: &[MemberId]) -> bool
    ensures { result ≡ list_any (λ i. is_desc_missing (all_classes class_index.now) i.desc) ids.now }
{
    ids.iter()
        .any(|id| class_index.is_desc_missing(id.desc.items()))
}

impl<'a> UncheckedWorld<'a> {
    /// Whether a method that a class gets from its interfaces names a class that is in no file.
    fn gets_missing(&self, class: Known<'_, 'a>) -> bool
        requires { IsHeld self.now class }
        ensures { result ≡ gets_missing (all_classes self.now) (class_of class.entry) }
    {
        match class {
            Known::Declared(number, _) => {
                let added = self.tables.added.items();
                self.class_index.are_ready(self.tables.above.items(), class)
                    && any_desc_missing(&self.class_index, added[number as usize].items())
            }
            Known::Imported(..) => false,
        }
    }

    /// The first rule that a class breaks itself.
    #[tactic(auto, unfolding(crate::specs::Rules::class_rules, crate::specs::Rules::head))]
    fn class_rule(&self, class: Known<'_, 'a>) -> Option<u16>
        requires { IsHeld self.now class }
        ensures { result ≡ head (class_rules self.now.package_name (all_classes self.now) (class_of class.entry)) }
    {
        if !class.is_imported() && !is_of_package(self.class_index.package(), class.name()) {
            Some(201)
        } else if self.class_index.is_second(class) {
            Some(202)
        } else if !class.is_imported()
            && (self.class_index.lists_missing(class) || self.gets_missing(class))
        {
            Some(203)
        } else if self.is_own_super(class.name()) {
            Some(204)
        } else if self.class_index.lists_wrong(class) {
            Some(208)
        } else {
            None
        }
    }

    /// Whether a class is its own superclass or superinterface over steps.
    fn is_own_super(&self, class: &[u8]) -> bool
        ensures { result ≡ stands_above (all_classes self.now) class.now class.now }
    {
        match &self.cycles {
            None => false,
            Some(cycles) => self.class_index.is_own_super(cycles, class),
        }
    }

    /// Whether the class at a place is its own superclass or superinterface over steps.
    fn is_own_super_at(&self, place: u32) -> bool
        ensures { result ≡ is_own_super_of (all_classes self.now) (slice_get (all_classes self.now) place) }
    {
        match self.class_index.class_in(place) {
            Some(class) => self.is_own_super(class.name()),
            None => false,
        }
    }

    /// Whether some class is.
    #[tactic(auto, using(crate::proofs::Circles::circle_here, crate::proofs::Circles::circle_behind, crate::proofs::Circles::circle_end))]
    pub(crate) fn has_cycle(&self) -> bool
        ensures { result ≡ has_cycle (all_classes self.now) }
    {
        for place in 0..self.class_index.count() {
            if self.is_own_super_at(place) {
                return true;
            }
        }
        false
    }

    /// Whether a class is java/lang/Throwable or has it as a superclass.
    fn is_throwable(&self, class: &[u8]) -> bool
        ensures { result ≡ is_below (all_classes self.now) class.now throwable }
    {
        match &self.cycles {
            None => self
                .class_index
                .is_below(self.tables.above.items(), class, THROWABLE),
            Some(cycles) => self.class_index.is_throwable(cycles, class),
        }
    }

    fn has_exception(&self, tree: &ExportTree, name: &[u8]) -> bool
        ensures { result ≡ has_exception (all_classes self.now) tree.now name.now }
    {
        has_class(tree, name) && self.is_throwable(name)
    }

    #[tactic(auto, unfolding(crate::specs::Rules::has_array_exceptions))]
    fn has_array_exceptions(&self, tree: &ExportTree) -> bool
        ensures { result ≡ has_array_exceptions (all_classes self.now) tree.now }
    {
        self.has_exception(tree, b"java/lang/ArrayIndexOutOfBoundsException")
            && self.has_exception(tree, b"java/lang/ArrayStoreException")
            && self.has_exception(tree, b"java/lang/NegativeArraySizeException")
    }

    #[tactic(auto, unfolding(crate::specs::Rules::has_other_exceptions))]
    fn has_other_exceptions(&self, tree: &ExportTree) -> bool
        ensures { result ≡ has_other_exceptions (all_classes self.now) tree.now }
    {
        self.has_exception(tree, b"java/lang/ArithmeticException")
            && self.has_exception(tree, b"java/lang/ClassCastException")
            && self.has_exception(tree, b"java/lang/NullPointerException")
    }

    #[tactic(auto, unfolding(crate::specs::Rules::has_needed))]
    fn has_needed(&self, tree: &ExportTree) -> bool
        ensures { result ≡ has_needed (all_classes self.now) tree.now }
    {
        has_roots(tree) && self.has_array_exceptions(tree) && self.has_other_exceptions(tree)
    }

    /// Whether java/lang is there, with all that is needed of it.
    fn has_language(&self) -> bool
        ensures { result ≡ has_language (all_classes self.now) self.now.exports }
    {
        for tree in self.exports().items() {
            if tree.name.items() == LANGUAGE {
                return self.has_needed(tree);
            }
        }
        false
    }

    /// The first rule that a field, or a method, of a class breaks.
    fn member_break<'w>(
        &'w self,
        file: FileKey,
        file_name: &'w [u8],
        class: usize,
        known: Known<'w, 'a>,
        field: bool,
    ) -> Option<Break<'w>>
        requires { IsListed (all_classes self.now) (class_of known) }
        ensures { option_map break_of result ≡ head (members_from file file_name.now class (all_classes self.now)
            (class_of known.entry) field 0 (members field (class_of known.entry))) }
    {
        self.class_index
            .member_break(file, file_name, class, known, field)
    }

    /// The first rule that a class or its members break.
    fn class_break<'w>(
        &'w self,
        file: FileKey,
        file_name: &'w [u8],
        class: usize,
        known: Known<'w, 'a>,
    ) -> Option<Break<'w>>
        requires held { IsHeld self.now known }
        requires listed { IsListed (all_classes self.now) (class_of known) }
        ensures { option_map break_of result ≡ head (class_breaks self.now.package_name file file_name.now class
            (all_classes self.now) (class_of known.entry)) }
    {
        if let Some(rule) = self.class_rule(known) {
            return Some(Break {
                rule,
                spot: RulePlace {
                    file,
                    class,
                    member: 0,
                    place: PlaceRef {
                        file: file_name,
                        class: known.name(),
                        part: Part::Whole,
                        offset: 0,
                    },
                },
            });
        }
        if let Some(broken) = self.member_break(file, file_name, class, known, true) {
            return Some(broken);
        }
        self.member_break(file, file_name, class, known, false)
    }

    /// The first rule that these classes of an export file or their members break, the first of them numbered so.
    fn classes_break<'w>(
        &'w self,
        file: FileKey,
        file_name: &'w [u8],
        number: u32,
        classes: &'w [ExportClass],
    ) -> Option<Break<'w>>
        requires few { number + length classes.now < 2 ^ 32 }
        requires listed { AreListed (all_classes self.now) (numbered number classes.now) }
        ensures { option_map break_of result ≡ head (classes_breaks self.now.package_name file file_name.now 1
            (all_classes self.now) (numbered number classes.now)) }
    {
        for (place, class) in classes.iter().enumerate() {
            let known = Known::Imported(number + place as u32, class);
            if let Some(broken) = self.class_break(file, file_name, place + 1, known) {
                return Some(broken);
            }
        }
        None
    }

    /// The first rule that a class file breaks.
    #[tactic(auto, unfolding(crate::specs::Rules::head))]
    fn class_file_break<'w>(
        &'w self,
        file: FileKey,
        file_name: &'w [u8],
        place: u32,
    ) -> Option<Break<'w>>
        requires { AreListed (all_classes self.now) (of_class_file place (slice_get self.now.classes place)) }
        ensures { option_map break_of result ≡ head (class_file_breaks self.now file file_name.now
            (all_classes self.now) place (slice_get self.now.classes place)) }
    {
        match self.classes().items().get(place as usize) {
            Some(class) => self.class_break(file, file_name, 1, Known::Declared(place, class)),
            None => None,
        }
    }

    /// The first rule that an export file breaks. Its first class is numbered so.
    #[tactic(auto, unfolding(crate::specs::Rules::head))]
    fn export_file_break<'w>(
        &'w self,
        file: FileKey,
        file_name: &'w [u8],
        place: u32,
        number: u32,
    ) -> Result<Option<Break<'w>>, NoMemory>
        requires { AreListed (all_classes self.now) (of_export_file number (slice_get self.now.exports place)) }
        ensures { IfOk result (λ b. option_map break_of b ≡ head (export_file_breaks self.now file file_name.now
            (all_classes self.now) place number (slice_get self.now.exports place))) }
    {
        let tree = match self.exports().items().get(place as usize) {
            Some(tree) => tree,
            None => return Ok(None),
        };
        sum(number, tree.classes.items().len())?;
        if self.class_index.is_second_package(place, tree) {
            return Ok(Some(Break {
                rule: 202,
                spot: RulePlace {
                    file,
                    class: 0,
                    member: 0,
                    place: PlaceRef {
                        file: file_name,
                        class: &[],
                        part: Part::Whole,
                        offset: 0,
                    },
                },
            }));
        }
        Ok(self.classes_break(file, file_name, number, tree.classes.items()))
    }

    /// The first rule that the files break, in the order of the list.
    fn files_break(&self) -> Result<Option<Break<'_>>, NoMemory>
        ensures { IfOk result (λ b. option_map break_of b ≡ head (breaks_from self.now (all_classes self.now) 0 0 0 0
            self.now.lines)) }
    {
        let mut classes = 0;
        let mut exports = 0;
        let mut imports = 0;
        for (place, line) in self.lines().items().iter().enumerate() {
            let name = line.name.items();
            if line.class_file {
                if let Some(broken) = self.class_file_break(FileKey::Line(place), name, classes) {
                    return Ok(Some(broken));
                }
                classes = sum(classes, 1)?;
            } else {
                if let Some(broken) = self.export_file_break(
                    FileKey::Line(place),
                    name,
                    exports,
                    imports,
                )? {
                    return Ok(Some(broken));
                }
                imports = sum(imports, size(self.exports().items(), exports))?;
                exports = sum(exports, 1)?;
            }
        }
        Ok(None)
    }

    /// The first rule that is broken. The list's name is that of its file.
    #[tactic(auto, unfolding(crate::specs::Rules::breaks, crate::specs::Rules::head))]
    pub(crate) fn first_broken<'w>(&'w self, list: &'w [u8]) -> Result<Option<Break<'w>>, NoMemory>
        ensures { IfOk result (λ b. option_map break_of b ≡ head (breaks list.now self.now)) }
    {
        if !self.has_language() {
            return Ok(Some(Break {
                rule: 207,
                spot: RulePlace {
                    file: FileKey::List,
                    class: 0,
                    member: 0,
                    place: PlaceRef {
                        file: list,
                        class: &[],
                        part: Part::Whole,
                        offset: 0,
                    },
                },
            }));
        }
        self.files_break()
    }
}

fn has_tree(trees: &[ExportTree], name: &[u8]) -> bool
    ensures { result ≡ list_any (λ t. bytes_eq t.name name.now) trees.now }
{
    trees.iter().any(|t| t.name.items() == name)
}

fn is_earlier(place: Option<u32>, other: usize) -> bool
    ensures { result ≡ is_earlier place other }
{
    match place {
        Some(place) => (place as usize) < other,
        None => false,
    }
}

fn part<'w>(field: bool, name: &'w [u8], desc: &'w [u8]) -> Part<'w>
    ensures { text_of result ≡ told field name.now desc.now }
{
    if field {
        Part::Field(name, desc)
    } else {
        Part::Method(name, desc)
    }
}

/// The place of a field or method among the members of its class, from 1.
fn member_number(known: Known<'_, '_>, field: bool, place: usize) -> u128
    ensures { result ≡ members_before field (class_of known.entry) + place + 1 }
{
    if field {
        place as u128 + 1
    } else {
        known.field_count() as u128 + place as u128 + 1
    }
}

fn any_not_object(names: &[Bytes]) -> bool
    ensures { result ≡ list_any (λ x. not (bytes_eq x object)) names.now }
{
    names.iter().any(|name| name.items() != OBJECT)
}
