//! `Known`, a class of a world whichever kind of file it is from: its name, flags, supers and members, lent. So
//! walks over classes need not tell class files from export files.

ghost use Rattle.std.specs.Prelude.{◌≡◌, ◌<◌, ◌+◌, ◌^◌, ◌&&◌, ◌==◌, get_or, length, MatchOption, None, Some};
ghost use Rattle.std.specs.Prelude.{option_map, position, slice_get};
ghost use Rattle.std.specs.Str.{bytes_eq};
ghost use Rattle.std.specs.List.{find, list_any};
ghost use Rattle.cjc_world.specs.Classes.{Member};
ghost use Rattle.cjc_bytes.specs.AccessFlags.{is_interface};
ghost use Rattle.cjc_world.specs.Added.{declares_open, is_open, takes_added};
ghost use Rattle.cjc_world.specs.Working.Asked.{IsNamed, asked, positioned};
ghost use Rattle.cjc_classfile.specs.declared.tree.MethodTree.{MethodTree as ClassMethod};
ghost use Rattle.cjc_export.specs.declared.tree.ExportMethod.{ExportMethod as ImportedMethod};
ghost use Rattle.cjc_world.specs.Rules.{members};
ghost use Rattle.cjc_world.specs.Working.Known.{class_of};
ghost use Rattle.cjc_world.specs.Working.Members.{flags_at, id_at, IsMemberIndex};
ghost use Rattle.cjc_world.specs.Lookup.{is_called, is_selectable, is_wanted, member_at, own_field, own_method};

use crate::found::Found;
use crate::members::first_called;
use cjc_bytes::{Bytes, is_abstract, is_interface, is_private, is_protected, is_public, is_static};
use cjc_classfile::{ClassTree, FieldTree, MethodTree};
use cjc_export::{ExportClass, ExportField, ExportMethod};
use std::slice;

const INITIALISER: &[u8] = b"<clinit>";

/// A class with its number in what a look-up finds.
#[derive(Clone, Copy)]
pub enum Known<'w, 'a> {
    /// A class of the package, with its place in list order.
    Declared(u32, &'w ClassTree<'a>),
    /// A class of an export file, with its place among those of all export files.
    Imported(u32, &'w ExportClass),
}

/// Whether a method is neither private nor static.
fn is_selectable(flags: u16) -> bool
    ensures { result ≡ is_selectable flags }
{
    !is_private(flags) && !is_static(flags)
}

/// Whether a look-up or a selection may end at a method.
pub(crate) fn is_wanted(selecting: bool, flags: u16) -> bool
    ensures { result ≡ is_wanted selecting flags }
{
    if selecting {
        is_selectable(flags)
    } else {
        true
    }
}

/// Whether one of the methods is public or protected, is not static, and has this name and descriptor.
fn class_opens(methods: &[MethodTree<'_>], name: &[u8], desc: &[u8]) -> bool
    ensures { result ≡ list_any (λ m. is_open m.flags && (bytes_eq m.name name.now && bytes_eq m.desc desc.now))
        methods.now }
{
    methods.iter().any(|m| is_open(m.flags) && (m.name.items() == name && m.desc.items() == desc))
}

fn export_opens(methods: &[ExportMethod], name: &[u8], desc: &[u8]) -> bool
    ensures { result ≡ list_any (λ m. is_open m.flags && (bytes_eq m.name name.now && bytes_eq m.desc desc.now))
        methods.now }
{
    methods.iter().any(|m| is_open(m.flags) && (m.name.items() == name && m.desc.items() == desc))
}

/// Whether a method is public or protected, and not static.
fn is_open(flags: u16) -> bool
    ensures { result ≡ is_open flags }
{
    (is_public(flags) || is_protected(flags)) && !is_static(flags)
}

fn class_method_at<'w>(
    methods: &'w [MethodTree<'_>],
    position: usize,
) -> Option<(&'w [u8], &'w [u8])>
    ensures { MatchOption result (slice_get methods.now position ≡ None) (λ p. (m : ClassMethod)
        × (slice_get methods.now position ≡ Some m) × (m.name ≡ p.0.now) × (m.desc ≡ p.1.now)) }
{
    let method = methods.get(position)?;
    Some((method.name.items(), method.desc.items()))
}

/// The first method with a token.
fn with_token(methods: &[ExportMethod], token: usize) -> Option<&ExportMethod>
    ensures { option_map (λ m. m.now) result ≡ find (λ m. m.token == token) methods.now }
{
    methods.iter().find(|m| usize::from(m.token) == token)
}

fn export_method_at(methods: &[ExportMethod], token: usize) -> Option<(&[u8], &[u8])>
    ensures { MatchOption result (find (λ m. m.token == token) methods.now ≡ None) (λ p. (m : ImportedMethod)
        × (find (λ m. m.token == token) methods.now ≡ Some m) × (m.name ≡ p.0.now) × (m.desc ≡ p.1.now)) }
{
    let method = with_token(methods, token)?;
    Some((method.name.items(), method.desc.items()))
}

fn class_field(fields: &[FieldTree], name: &[u8], desc: &[u8]) -> Option<usize>
    ensures { result ≡ position (λ f. bytes_eq f.name name.now && bytes_eq f.desc desc.now) fields.now }
{
    fields
        .iter()
        .position(|f| f.name.items() == name && f.desc.items() == desc)
}

fn export_field(fields: &[ExportField], name: &[u8], desc: &[u8]) -> Option<usize>
    ensures { result ≡ position (λ f. bytes_eq f.name name.now && bytes_eq f.desc desc.now) fields.now }
{
    fields
        .iter()
        .position(|f| f.name.items() == name && f.desc.items() == desc)
}

fn class_method(methods: &[MethodTree<'_>], name: &[u8], desc: &[u8]) -> Option<usize>
    ensures { result ≡ position (λ m. bytes_eq m.name name.now && bytes_eq m.desc desc.now) methods.now }
{
    methods
        .iter()
        .position(|m| m.name.items() == name && m.desc.items() == desc)
}

fn export_method(methods: &[ExportMethod], name: &[u8], desc: &[u8]) -> Option<usize>
    ensures { result ≡ position (λ m. bytes_eq m.name name.now && bytes_eq m.desc desc.now) methods.now }
{
    methods
        .iter()
        .position(|m| m.name.items() == name && m.desc.items() == desc)
}

impl<'w, 'a> Known<'w, 'a> {
    /// The full name, its parts joined by `/`.
    pub fn name(self) -> &'w [u8]
        ensures { result.now ≡ (class_of self.entry).name }
    {
        match self {
            Known::Declared(_, class) => class.name.items(),
            Known::Imported(_, class) => class.name.items(),
        }
    }

    /// Whether an export file has it.
    pub fn is_imported(self) -> bool
        ensures { result ≡ (class_of self.entry).is_imported }
    {
        match self {
            Known::Declared(..) => false,
            Known::Imported(..) => true,
        }
    }

    /// The number in what a look-up finds.
    pub fn number(self) -> u32
        ensures { result ≡ (class_of self.entry).number }
    {
        match self {
            Known::Declared(number, _) => number,
            Known::Imported(number, _) => number,
        }
    }

    /// The access flags as the file has them (Java Virtual Machine Specification, section 4.1).
    pub fn flags(self) -> u16
        ensures { result ≡ (class_of self.entry).flags }
    {
        match self {
            Known::Declared(_, class) => class.flags,
            Known::Imported(_, class) => class.flags,
        }
    }

    /// Whether it is an interface.
    pub fn is_interface(self) -> bool
        ensures { result ≡ is_interface (class_of self.entry).flags }
    {
        match self {
            Known::Declared(_, class) => is_interface(class.flags),
            Known::Imported(_, class) => is_interface(class.flags),
        }
    }

    /// Of a class of the package its superclass alone, of an imported class the supers that its file lists, and last
    /// java/lang/Object where it does not list that.
    pub fn supers(self) -> &'w [Bytes]
        ensures { result.now ≡ (class_of self.entry).supers }
    {
        match self {
            Known::Declared(_, class) => slice::from_ref(&class.superclass),
            Known::Imported(_, class) => class.supers.items(),
        }
    }

    /// The interfaces that its file lists, in order.
    pub fn interfaces(self) -> &'w [Bytes]
        ensures { result.now ≡ (class_of self.entry).interfaces }
    {
        match self {
            Known::Declared(_, class) => class.interfaces.items(),
            Known::Imported(_, class) => class.interfaces.items(),
        }
    }

    #[tactic(auto, using(crate::proofs::Places::position_of_map))]
    fn field_place(self, name: &[u8], desc: &[u8]) -> Option<usize>
        ensures { result ≡ position (λ f. is_called name.now desc.now f) (class_of self.entry).fields }
    {
        match self {
            Known::Declared(_, class) => class_field(class.fields.items(), name, desc),
            Known::Imported(_, class) => export_field(class.fields.items(), name, desc),
        }
    }

    #[tactic(auto, using(crate::proofs::Places::position_of_map))]
    fn method_place(self, name: &[u8], desc: &[u8]) -> Option<usize>
        ensures { result ≡ position (λ m. is_called name.now desc.now m) (class_of self.entry).methods }
    {
        match self {
            Known::Declared(_, class) => class_method(class.methods.items(), name, desc),
            Known::Imported(_, class) => export_method(class.methods.items(), name, desc),
        }
    }

    /// How many fields it has.
    pub fn field_count(self) -> usize
        ensures { result ≡ length (class_of self.entry).fields }
    {
        match self {
            Known::Declared(_, class) => class.fields.items().len(),
            Known::Imported(_, class) => class.fields.items().len(),
        }
    }

    fn found(self, place: u32) -> Found
        ensures { result ≡ member_at (class_of self.entry) place }
    {
        match self {
            Known::Declared(class, _) => Found {
                imported: false,
                class,
                member: place,
            },
            Known::Imported(class, _) => Found {
                imported: true,
                class,
                member: place,
            },
        }
    }

    /// The class's own field of this name and descriptor, by the index of its fields.
    #[tactic(auto, unfolding(crate::specs::Lookup::own_field))]
    pub(crate) fn field(self, places: &[u32], name: &[u8], desc: &[u8]) -> Option<Found>
        requires { IsMemberIndex (class_of self).fields places.now }
        ensures { result ≡ own_field name.now desc.now (class_of self.entry) }
    {
        let place = first_called(self, true, places, false, name, desc)?;
        Some(self.found(place))
    }

    /// The class's own method of this name and descriptor, by the index of its methods; in selecting neither a private
    /// nor a static one.
    #[tactic(auto, using(crate::proofs::Places::position_within), unfolding(crate::specs::Lookup::own_method))]
    pub(crate) fn method(
        self,
        places: &[u32],
        selecting: bool,
        name: &[u8],
        desc: &[u8],
    ) -> Option<Found>
        requires counted { length (class_of self).fields + length (class_of self).methods < 2 ^ 32 }
        requires index { IsMemberIndex (class_of self).methods places.now }
        ensures { result ≡ own_method selecting name.now desc.now (class_of self.entry) }
    {
        let place = first_called(self, false, places, selecting, name, desc)?;
        Some(self.found(self.field_count() as u32 + place))
    }

    /// How many fields or methods there are.
    pub fn member_count(self, field: bool) -> usize
        ensures { result ≡ length (members field (class_of self.entry)) }
    {
        match self {
            Known::Declared(_, class) if field => class.fields.items().len(),
            Known::Declared(_, class) => class.methods.items().len(),
            Known::Imported(_, class) if field => class.fields.items().len(),
            Known::Imported(_, class) => class.methods.items().len(),
        }
    }

    /// The place of the first field or method of this name and descriptor.
    pub fn place(self, field: bool, name: &[u8], desc: &[u8]) -> Option<usize>
        ensures { result ≡ position (λ m. is_called name.now desc.now m) (members field (class_of self.entry)) }
    {
        if field {
            self.field_place(name, desc)
        } else {
            self.method_place(name, desc)
        }
    }

    /// Whether it is an abstract class of the package and no interface.
    pub(crate) fn takes_added(self) -> bool
        ensures { result ≡ takes_added (class_of self.entry) }
    {
        match self {
            Known::Declared(_, class) => is_abstract(class.flags) && !is_interface(class.flags),
            Known::Imported(..) => false,
        }
    }

    /// Whether it declares such a method that is public or protected, and not static.
    pub(crate) fn declares_open(self, name: &[u8], desc: &[u8]) -> bool
        ensures { result ≡ declares_open name.now desc.now (class_of self.entry) }
    {
        match self {
            Known::Declared(_, class) => class_opens(class.methods.items(), name, desc),
            Known::Imported(_, class) => export_opens(class.methods.items(), name, desc),
        }
    }

    /// The name and the descriptor of the method at a position, which in an export file is its token.
    fn positioned(self, position: usize) -> Option<(&'w [u8], &'w [u8])>
        ensures { MatchOption result (positioned (class_of self.entry) position ≡ None)
            (λ p. IsNamed (positioned (class_of self.entry) position) p.0.now p.1.now) }
    {
        match self {
            Known::Declared(_, class) => class_method_at(class.methods.items(), position),
            Known::Imported(_, class) => export_method_at(class.methods.items(), position),
        }
    }

    /// The same of the own methods that other classes have from an interface: `<clinit>` is none.
    pub(crate) fn asked(self, position: usize) -> Option<(&'w [u8], &'w [u8])>
        ensures { MatchOption result (asked (class_of self.entry) position ≡ None)
            (λ p. IsNamed (asked (class_of self.entry) position) p.0.now p.1.now) }
    {
        let (name, desc) = self.positioned(position)?;
        if name == INITIALISER {
            return None;
        }
        Some((name, desc))
    }

    fn field_at(self, place: usize) -> (&'w [u8], &'w [u8])
        requires { place < length (class_of self).fields }
        ensures name { (d : Member) → result.0.now ≡ (get_or (class_of self.entry).fields place d).name }
        ensures desc { (d : Member) → result.1.now ≡ (get_or (class_of self.entry).fields place d).desc }
    {
        match self {
            Known::Declared(_, class) => {
                let field = &class.fields.items()[place];
                (field.name.items(), field.desc.items())
            }
            Known::Imported(_, class) => {
                let field = &class.fields.items()[place];
                (field.name.items(), field.desc.items())
            }
        }
    }

    fn method_at(self, place: usize) -> (&'w [u8], &'w [u8])
        requires { place < length (class_of self).methods }
        ensures name { (d : Member) → result.0.now ≡ (get_or (class_of self.entry).methods place d).name }
        ensures desc { (d : Member) → result.1.now ≡ (get_or (class_of self.entry).methods place d).desc }
    {
        match self {
            Known::Declared(_, class) => {
                let method = &class.methods.items()[place];
                (method.name.items(), method.desc.items())
            }
            Known::Imported(_, class) => {
                let method = &class.methods.items()[place];
                (method.name.items(), method.desc.items())
            }
        }
    }

    /// The access flags of the field or method at a place (Java Virtual Machine Specification, sections 4.5 and 4.6).
    pub fn member_flags(self, field: bool, place: usize) -> u16
        requires { place < length (members field (class_of self)) }
        ensures { (d : Member) → result ≡ (get_or (members field (class_of self.entry)) place d).flags }
    {
        match self {
            Known::Declared(_, class) if field => class.fields.items()[place].flags,
            Known::Declared(_, class) => class.methods.items()[place].flags,
            Known::Imported(_, class) if field => class.fields.items()[place].flags,
            Known::Imported(_, class) => class.methods.items()[place].flags,
        }
    }

    /// The name and the descriptor of the field or method at a place.
    pub fn member_at(self, field: bool, place: usize) -> (&'w [u8], &'w [u8])
        requires { place < length (members field (class_of self)) }
        ensures name { (d : Member) → result.0.now ≡ (get_or (members field (class_of self.entry)) place d).name }
        ensures desc { (d : Member) → result.1.now ≡ (get_or (members field (class_of self.entry)) place d).desc }
    {
        if field {
            self.field_at(place)
        } else {
            self.method_at(place)
        }
    }
    /// The name and the descriptor of the field or method at a place, both empty where there is none.
    pub(crate) fn id_at(self, field: bool, place: u32) -> (&'w [u8], &'w [u8])
        ensures name { result.0.now ≡ (id_at (members field (class_of self.entry)) place).0 }
        ensures desc { result.1.now ≡ (id_at (members field (class_of self.entry)) place).1 }
    {
        if (place as usize) < self.member_count(field) {
            self.member_at(field, place as usize)
        } else {
            (&[], &[])
        }
    }

    /// The access flags of the field or method at a place, 0 where there is none.
    pub(crate) fn flags_at(self, field: bool, place: u32) -> u16
        ensures { result ≡ flags_at (members field (class_of self.entry)) place }
    {
        if (place as usize) < self.member_count(field) {
            self.member_flags(field, place as usize)
        } else {
            0
        }
    }
}
