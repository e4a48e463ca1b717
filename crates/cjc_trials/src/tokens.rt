//! The tokens of small packages, and look-up in them both ways.

ghost use Rattle.std.specs.Prelude.{◌≡◌, length, nat_lt, IfOk};
ghost use Rattle.cjc_tokens.specs.Tokens.{assigned};

use crate::drafts::{Draft, EQUALS, Imported, OBJECT, Part, class, method, world_of};
use cjc_bytes::{AppletLine, Bytes, Fault, NoMemory, Row, Settings};
use cjc_classfile::ClassTree;
use cjc_tokens::{Tokens, assign, few};
use cjc_world::{Found, World};
use std::alloc::Global;
use std::test::*;

pub(crate) fn settings(alloc: Global, applets: &[&[u8]]) -> Result<Settings, NoMemory> {
    let mut row = Row::new(alloc);
    for class in applets {
        row.push(AppletLine {
            class: Bytes::copy_of(alloc, class)?,
            aid: Bytes::new(alloc),
        })?;
    }
    Ok(Settings {
        ints: true,
        applets: row,
    })
}

/// The tokens of a world; too many classes or cells count as want of memory.
pub(crate) fn tokens_of(
    alloc: Global,
    world: &World<'_>,
    settings: &Settings,
) -> Result<Tokens, Fault>
    ensures { IfOk result (λ t. t ≡ assigned (nat_lt 0 (length settings.now.applets)) world.now) }
{
    if !few(world, settings)? {
        return Err(Fault::NoMemory);
    }
    assign(alloc, world, settings)
}

/// The tokens of a package without applets.
fn tokens(alloc: Global, parts: &[Part<'_>]) -> Result<Tokens, Fault> {
    let world = world_of(alloc, parts)?;
    let settings = settings(alloc, &[])?;
    tokens_of(alloc, &world, &settings)
}

pub(crate) fn declared(class: u32, member: u32) -> Option<Found> {
    Some(Found {
        imported: false,
        class,
        member,
    })
}

fn listed(class: u32, member: u32) -> Option<Found> {
    Some(Found {
        imported: true,
        class,
        member,
    })
}

/// The tokens of the members of a class in their order, which is imported or not and has this number.
type Members<'t> = (bool, u32, &'t [Option<u8>]);

fn has_members(tokens: &Tokens, wanted: Members<'_>) -> bool {
    let (imported, class, members) = wanted;
    let mut id = Found {
        imported,
        class,
        member: 0,
    };
    for token in members {
        if tokens.member_token(id) != *token {
            return false;
        }
        id.member = id.member.wrapping_add(1);
    }
    tokens.member_token(id).is_none()
}

/// What the virtual tokens of a class mean from one on; the next means none.
type Meanings<'t> = (u32, u8, &'t [Option<Found>]);

fn has_meanings(tokens: &Tokens, wanted: Meanings<'_>) -> bool {
    let (class, from, methods) = wanted;
    let mut token = from;
    for found in methods {
        if tokens.virtual_by_token(class, token) != *found {
            return false;
        }
        token = token.wrapping_add(1);
    }
    tokens.virtual_by_token(class, token).is_none()
}

/// Whether a package has tokens, and they are these.
fn are_tokens(
    tokens: Result<Tokens, Fault>,
    members: &[Members<'_>],
    meanings: &[Meanings<'_>],
) -> bool {
    match tokens {
        Err(_) => false,
        Ok(tokens) => {
            members.iter().all(|wanted| has_members(&tokens, *wanted))
                && meanings.iter().all(|wanted| has_meanings(&tokens, *wanted))
        }
    }
}

fn has_classes(tokens: &Tokens, classes: &[Option<u8>]) -> bool {
    let mut class = 0u32;
    for token in classes {
        if tokens.class_token(class) != *token {
            return false;
        }
        class = class.wrapping_add(1);
    }
    tokens.class_token(class).is_none()
}

/// Whether a package has tokens, and those of its classes are these.
fn are_classes(tokens: Result<Tokens, Fault>, classes: &[Option<u8>]) -> bool {
    match tokens {
        Err(_) => false,
        Ok(tokens) => has_classes(&tokens, classes),
    }
}

/// A class q/A with a constructor, the static method z, and equals, a and b by the tokens 0 to 2.
const OTHER: &[Imported<'static>] = &[(
    1,
    b"q/A",
    &[OBJECT],
    &[],
    &[],
    &[
        (0, 1, b"<init>", b"()V"),
        (1, 9, b"z", b"()Z"),
        (0, 1, b"equals", EQUALS),
        (1, 1, b"a", b"()S"),
        (2, 1, b"b", b"()S"),
    ],
)];

/// p/B and p/N extend q/A, and p/C extends p/B.
pub(crate) const OVERRIDING: &[Part<'static>] = &[
    Part::Language,
    Part::Export(b"q", OTHER),
    Part::Class((
        0x20,
        b"p/B",
        b"q/A",
        &[],
        &[],
        &[
            (1, b"<init>", b"()V"),
            (1, b"a", b"()S"),
            (9, b"make", b"()Lp/B;"),
            (9, b"call", b"(Lp/B;)S"),
        ],
    )),
    Part::Class((
        0x21,
        b"p/C",
        b"p/B",
        &[],
        &[],
        &[
            (4, b"c", b"()S"),
            (1, b"b", b"()S"),
            (2, b"p", b"()S"),
            (9, b"s", b"()S"),
            (10, b"t", b"()S"),
            (0, b"<init>", b"()V"),
            (12, b"u", b"()S"),
            (8, b"<clinit>", b"()V"),
        ],
    )),
    Part::Class((0x20, b"p/N", b"q/A", &[], &[], &[(1, b"<init>", b"()V")])),
];

#[test]
fn overriding_methods_keep_their_tokens(rt: HostRuntime) {
    let members: [Members<'_>; 3] = [
        (false, 0, &[None, Some(1), None, None]),
        (
            false,
            1,
            &[Some(3), Some(2), None, Some(0), None, None, Some(1), None],
        ),
        (true, 8, &[Some(0), Some(1), Some(0), Some(1), Some(2)]),
    ];
    let meanings: [Meanings<'_>; 3] = [
        (0, 0, &[listed(8, 2), declared(0, 1), listed(8, 4)]),
        (
            1,
            0,
            &[listed(8, 2), declared(0, 1), declared(1, 1), declared(1, 0)],
        ),
        (0, 128, &[]),
    ];
    assert!(rt; are_tokens(tokens(rt.alloc(), OVERRIDING), &members, &meanings));
}

#[test]
fn public_classes_have_tokens(rt: HostRuntime) {
    let classes: [Option<u8>; 3] = [None, Some(0), None];
    assert!(rt; are_classes(tokens(rt.alloc(), OVERRIDING), &classes));
}

/// A class with a package-visible method.
const HIDDEN: &[Imported<'static>] = &[(
    1,
    b"q/G",
    &[OBJECT],
    &[],
    &[],
    &[
        (0, 1, b"equals", EQUALS),
        (1, 1, b"a", b"()S"),
        (2, 0, b"o", b"()V"),
    ],
)];

/// p/D extends p/C, and p/E extends q/G.
pub(crate) const HIDING: &[Part<'static>] = &[
    Part::Language,
    Part::Export(b"q", HIDDEN),
    Part::Class((
        0x21,
        b"p/C",
        OBJECT,
        &[],
        &[],
        &[
            (1, b"a", b"()S"),
            (0, b"b", b"()S"),
            (4, b"c", b"()S"),
            (0, b"d", b"()S"),
        ],
    )),
    Part::Class((
        0x21,
        b"p/D",
        b"p/C",
        &[],
        &[],
        &[(0, b"e", b"()S"), (0, b"b", b"()S"), (1, b"f", b"()S")],
    )),
    Part::Class((
        0x21,
        b"p/E",
        b"q/G",
        &[],
        &[],
        &[(1, b"n", b"()V"), (0, b"o", b"()V")],
    )),
];

#[test]
fn package_visible_methods_have_tokens_of_their_own(rt: HostRuntime) {
    let members: [Members<'_>; 3] = [
        (false, 0, &[Some(1), Some(128), Some(2), Some(129)]),
        (false, 1, &[Some(130), Some(128), Some(3)]),
        // a package-visible method of an export file uses up its token and is overridden by nothing
        (false, 2, &[Some(3), Some(128)]),
    ];
    let meanings: [Meanings<'_>; 3] = [
        (0, 128, &[declared(0, 1), declared(0, 3)]),
        (1, 128, &[declared(1, 1), declared(0, 3), declared(1, 0)]),
        (2, 0, &[listed(8, 0), listed(8, 1), None, declared(2, 0)]),
    ];
    assert!(rt; are_tokens(tokens(rt.alloc(), HIDING), &members, &meanings));
}

/// An interface p/I, an abstract class p/P that has it, and p/R below that.
pub(crate) const ASKING: &[Part<'static>] = &[
    Part::Language,
    Part::Class((0x0600, b"p/I", OBJECT, &[], &[], &[(0x0401, b"v", b"()S")])),
    Part::Class((
        0x0421,
        b"p/P",
        OBJECT,
        &[b"p/I"],
        &[],
        &[(1, b"<init>", b"()V")],
    )),
    Part::Class((
        0x21,
        b"p/R",
        b"p/P",
        &[],
        &[],
        &[(1, b"<init>", b"()V"), (1, b"v", b"()S")],
    )),
];

#[test]
fn an_abstract_class_gets_a_token_for_each_added_method(rt: HostRuntime) {
    let members: [Members<'_>; 3] = [
        (false, 0, &[Some(0)]),
        (false, 1, &[Some(0), Some(1)]),
        (false, 2, &[Some(0), Some(1)]),
    ];
    let meanings: [Meanings<'_>; 3] = [
        (1, 0, &[listed(0, 1), declared(1, 1)]),
        (2, 0, &[listed(0, 1), declared(2, 1)]),
        (0, 0, &[declared(0, 0)]),
    ];
    assert!(rt; are_tokens(tokens(rt.alloc(), ASKING), &members, &meanings));
}

/// p/J extends p/K and p/L, which both extend p/I.
pub(crate) const COMMON: &[Part<'static>] = &[
    Part::Class((
        0x21,
        b"p/S",
        b"p/T",
        &[],
        &[],
        &[(1, b"l", b"()S"), (1, b"n", b"()S")],
    )),
    Part::Language,
    Part::Class((
        0x21,
        b"p/T",
        OBJECT,
        &[b"p/J", b"p/L"],
        &[],
        &[
            (1, b"j", b"()S"),
            (1, b"l", b"()S"),
            (1, b"k", b"()S"),
            (1, b"i", b"()S"),
        ],
    )),
    Part::Class((
        0x0601,
        b"p/J",
        OBJECT,
        &[b"p/K", b"p/L"],
        &[],
        &[(0x0401, b"j", b"()S"), (0x0401, b"i", b"()S")],
    )),
    Part::Class((
        0x0601,
        b"p/K",
        OBJECT,
        &[b"p/I"],
        &[],
        &[(0x0401, b"k", b"()S")],
    )),
    Part::Class((
        0x0601,
        b"p/L",
        OBJECT,
        &[b"p/I"],
        &[],
        &[(0x0401, b"l", b"()S")],
    )),
    Part::Class((0x0601, b"p/I", OBJECT, &[], &[], &[(0x0401, b"i", b"()S")])),
];

#[test]
fn a_common_interface_counts_once(rt: HostRuntime) {
    let members: [Members<'_>; 6] = [
        (false, 0, &[Some(2), Some(5)]),
        (false, 1, &[Some(1), Some(2), Some(3), Some(4)]),
        (false, 2, &[Some(3), Some(0)]),
        (false, 3, &[Some(1)]),
        (false, 4, &[Some(1)]),
        (false, 5, &[Some(0)]),
    ];
    let meanings: [Meanings<'_>; 2] = [
        // the interface's own before those of the first superinterface
        (
            2,
            0,
            &[
                declared(2, 1),
                declared(3, 0),
                declared(4, 0),
                declared(2, 0),
            ],
        ),
        (3, 0, &[declared(5, 0), declared(3, 0)]),
    ];
    assert!(rt; are_tokens(tokens(rt.alloc(), COMMON), &members, &meanings));
}

const HOLDING: &[Part<'static>] = &[
    Part::Language,
    Part::Class((
        0x21,
        b"p/F",
        OBJECT,
        &[],
        &[
            (2, b"a", b"S"),
            (1, b"b", b"[B"),
            (1, b"c", b"S"),
            (0, b"d", b"Lp/F;"),
            (4, b"e", b"I"),
            (9, b"s", b"S"),
            (0x19, b"k", b"S"),
            (12, b"t", b"[B"),
            (10, b"u", b"S"),
            (0x19, b"o", b"Lp/F;"),
            (4, b"g", b"Z"),
        ],
        &[],
    )),
];

#[test]
fn fields_stand_in_groups(rt: HostRuntime) {
    let members: Members<'_> = (
        false,
        0,
        &[
            Some(6),
            Some(4),
            Some(0),
            Some(5),
            Some(1), // the int has 1 and 2
            Some(0),
            None, // a constant
            Some(1),
            None,
            Some(2),
            Some(3),
        ],
    );
    assert!(rt; are_tokens(tokens(rt.alloc(), HOLDING), &[members], &[]));
}

/// Whether a package has tokens, and these fields of its first class have the instance tokens from 0 on.
fn are_fields(tokens: Result<Tokens, Fault>, places: &[Option<u32>]) -> bool {
    let tokens = match tokens {
        Err(_) => return false,
        Ok(tokens) => tokens,
    };
    let mut token = 0u8;
    for place in places {
        if tokens.field_by_token(0, token) != *place {
            return false;
        }
        token = token.wrapping_add(1);
    }
    true
}

#[test]
fn tokens_mean_fields(rt: HostRuntime) {
    let places: [Option<u32>; 8] = [
        Some(2),
        Some(4),
        None, // the int's second cell
        Some(10),
        Some(1),
        Some(3),
        Some(0),
        None,
    ];
    assert!(rt; are_fields(tokens(rt.alloc(), HOLDING), &places));
}

/// A class p/C, interfaces p/J and p/K below p/I, and an imported interface.
const SHARING: &[Part<'static>] = &[
    Part::Language,
    Part::Class((0x21, b"p/C", OBJECT, &[], &[], &[])),
    Part::Class((0x0601, b"p/J", OBJECT, &[b"p/I"], &[], &[])),
    Part::Class((0x0600, b"p/K", OBJECT, &[b"p/I"], &[], &[])),
    Part::Export(
        b"javacard/framework",
        &[(
            0x0E01,
            b"javacard/framework/Shareable",
            &[OBJECT],
            &[],
            &[],
            &[],
        )],
    ),
];

const SHAREABLE: Part<'static> = Part::Class((
    0x0601,
    b"p/I",
    OBJECT,
    &[b"javacard/framework/Shareable"],
    &[],
    &[],
));

const OWN: Part<'static> = Part::Class((0x0601, b"p/I", OBJECT, &[], &[], &[]));

/// The tokens of these classes and of p/I.
fn sharing(alloc: Global, i: Part<'_>, applets: &[&[u8]]) -> Result<Tokens, Fault> {
    let mut draft = Draft::new(alloc);
    draft.put_all(alloc, SHARING)?;
    draft.put(alloc, i)?;
    let world = draft.world(alloc)?;
    let settings = settings(alloc, applets)?;
    tokens_of(alloc, &world, &settings)
}

#[test]
fn a_package_with_applets_exports_shareable_interfaces(rt: HostRuntime) {
    let alloc = rt.alloc();
    let shared: [Option<u8>; 4] = [None, Some(0), None, Some(1)];
    assert!(rt; are_classes(sharing(alloc, SHAREABLE, &[b"p/C"]), &shared));
    let none: [Option<u8>; 4] = [None, None, None, None];
    assert!(rt; are_classes(sharing(alloc, OWN, &[b"p/C"]), &none));
    let public: [Option<u8>; 4] = [Some(0), Some(1), None, Some(2)];
    assert!(rt; are_classes(sharing(alloc, SHAREABLE, &[]), &public));
}

/// A class p/M with so many methods besides equals, with these flags.
fn with_many<'a>(alloc: Global, flags: u16, count: u16) -> Result<ClassTree<'a>, NoMemory> {
    let mut tree = class(alloc, (0x21, b"p/M", OBJECT, &[], &[], &[]))?;
    for number in 0..count {
        let name = [b'a' + (number / 26 % 26) as u8, b'a' + (number % 26) as u8];
        tree.methods.push(method(alloc, (flags, &name, b"()V"))?)?;
    }
    Ok(tree)
}

const BESIDE: &[Part<'static>] = &[
    Part::Class((0x21, b"p/A", OBJECT, &[], &[], &[])),
    Part::Language,
];

/// The tokens of a package with p/M.
fn many(alloc: Global, flags: u16, count: u16) -> Result<Tokens, Fault> {
    let mut draft = Draft::new(alloc);
    draft.put_all(alloc, BESIDE)?;
    draft.class_file(alloc, b"p/M", with_many(alloc, flags, count)?)?;
    let world = draft.world(alloc)?;
    let settings = settings(alloc, &[])?;
    tokens_of(alloc, &world, &settings)
}

fn is_refused(tokens: Result<Tokens, Fault>, file: &[u8]) -> bool {
    match tokens {
        Err(Fault::Refused(refusal)) => {
            refusal.rule.0 == 413
                && refusal.place.file.items() == file
                && refusal.place.class.items() == file
                && refusal.place.member.items().is_empty()
                && refusal.place.offset == 0
        }
        _ => false,
    }
}

/// Whether so many methods may be there, and no more.
fn is_most(alloc: Global, flags: u16, most: u16) -> bool {
    many(alloc, flags, most).is_ok() && is_refused(many(alloc, flags, most.wrapping_add(1)), b"p/M")
}

#[test]
fn too_many_methods_are_refused(rt: HostRuntime) {
    assert!(rt; is_most(rt.alloc(), 1, 127)); // public
    assert!(rt; is_most(rt.alloc(), 0, 128)); // package-visible
    assert!(rt; is_most(rt.alloc(), 9, 255)); // public and static
}
