//! The tokens of small packages, and look-up in them both ways.

ghost use Rattle.std.specs.Prelude.{◌≡◌, length, nat_lt, IfOk};
ghost use Rattle.cjc_vtable.specs.Tokens.Tokens.{assigned};

use crate::rules::drafts::{TestPackage, token};
use crate::rules::found::is_found;
use cjc_tests_files::cases::{cut, is_number, number, question_and_answer};
use cjc_vtable::bytes::{Fault, Settings};
use cjc_vtable::tokens::{Tokens, assign, few};
use cjc_vtable::world::{Found, World};
use std::alloc::Global;
use std::test::*;

/// The tokens of a world; too many classes or cells count as want of memory.
pub(crate) fn tokens_of(
    alloc: Global,
    world: &World<'_>,
    settings: &Settings,
) -> Result<Tokens, Fault>
    ensures { IfOk result (λ t. t ≡ assigned (nat_lt 0 (length settings.now.applets)) world.now) }
{
    if !few(world, settings)? {
        return Err(Fault::NoMemory);
    }
    assign(alloc, world, settings)
}

/// The tokens of a case among the lines around it.
fn tokens(alloc: Global, around: &str, case: &str) -> Result<Tokens, Fault> {
    let mut draft = TestPackage::new(alloc);
    draft.put_case(alloc, around, case)?;
    let settings = Settings {
        ints: true,
        applets: draft.take_applets(alloc),
    };
    let world = draft.world(alloc)?;
    tokens_of(alloc, &world, &settings)
}

/// Whether a word is this token, or `-` where there is none.
fn is_token(token: Option<u8>, word: &str) -> bool {
    match token {
        Some(token) => is_number(word, token as u32),
        None => word == "-",
    }
}

/// The tokens of the members of a class in their order, and no more.
fn are_members(tokens: &Tokens, imported: bool, class: u32, answer: &str) -> bool {
    let mut id = Found {
        imported,
        class,
        member: 0,
    };
    for word in answer.split(" ") {
        if !is_token(tokens.member_token(id), word) {
            return false;
        }
        id.member = id.member.wrapping_add(1);
    }
    tokens.member_token(id).is_none()
}

/// What the virtual tokens of a class mean from one on; the next means none.
fn are_meanings(tokens: &Tokens, class: u32, from: &str, answer: &str) -> bool {
    let mut token = match token(from) {
        Ok(token) => token,
        Err(_) => return false,
    };
    for words in answer.split(", ") {
        if !is_found(tokens.virtual_by_token(class, token), words) {
            return false;
        }
        token = token.wrapping_add(1);
    }
    tokens.virtual_by_token(class, token).is_none()
}

/// The tokens of the classes from this one on, and no more.
fn are_classes(tokens: &Tokens, first: u32, answer: &str) -> bool {
    let mut class = first;
    for word in answer.split(" ") {
        if !is_token(tokens.class_token(class), word) {
            return false;
        }
        class = class.wrapping_add(1);
    }
    tokens.class_token(class).is_none()
}

fn is_field(place: Option<u32>, word: &str) -> bool {
    match place {
        Some(place) => is_number(word, place),
        None => word == "-",
    }
}

/// The fields of a class that have the instance tokens from 0 on.
fn are_fields(tokens: &Tokens, class: u32, answer: &str) -> bool {
    let mut token = 0u8;
    for word in answer.split(" ") {
        if !is_field(tokens.field_by_token(class, token), word) {
            return false;
        }
        token = token.wrapping_add(1);
    }
    true
}

fn is_answered(tokens: &Tokens, case: &str) -> bool {
    let (question, answer) = question_and_answer(case);
    let (kind, words) = cut(question, " ");
    let (class, from) = cut(words, " ");
    let class = match number(class) {
        Ok(class) => class,
        Err(_) => return false,
    };
    match kind {
        "own" => are_members(tokens, false, class, answer),
        "imported" => are_members(tokens, true, class, answer),
        "virtual" => are_meanings(tokens, class, from, answer),
        "classes" => are_classes(tokens, class, answer),
        "fields" => are_fields(tokens, class, answer),
        _ => false,
    }
}

/// The first case that the tokens answer otherwise; nothing where there is none.
fn first_in<'t>(tokens: &Tokens, cases: &'t str) -> &'t str {
    for case in cases.lines() {
        if !is_answered(tokens, case) {
            return case;
        }
    }
    ""
}

/// The first case that the package of these lines answers otherwise; nothing where there is none.
fn first_asked<'t>(alloc: Global, lines: &str, cases: &'t str) -> &'t str {
    match tokens(alloc, lines, "...") {
        Ok(tokens) => first_in(&tokens, cases),
        Err(_) => "no tokens",
    }
}

/// A class q/A with a constructor, the static method z, and equals, a and b by the tokens 0 to 2. p/B and p/N extend
/// q/A, and p/C extends p/B.
pub(crate) const OVERRIDING: &str = "\
language
export q
import q/A 1 java/lang/Object - \
    | 0 1 <init> ()V | 1 9 z ()Z | 0 1 equals (Ljava/lang/Object;)Z | 1 1 a ()S | 2 1 b ()S
class 20 p/B q/A - | 1 <init> ()V | 1 a ()S | 9 make ()Lp/B; | 9 call (Lp/B;)S
class 21 p/C p/B - \
    | 4 c ()S | 1 b ()S | 2 p ()S | 9 s ()S | a t ()S | 0 <init> ()V | c u ()S | 8 <clinit> ()V
class 20 p/N q/A - | 1 <init> ()V";

/// Overriding methods keep their tokens, and public classes have some.
const OVERRIDDEN: &str = "\
own 0 = - 1 - -
own 1 = 3 2 - 0 - - 1 -
imported 8 = 0 1 0 1 2
virtual 0 0 = imported 8 2, own 0 1, imported 8 4
virtual 1 0 = imported 8 2, own 0 1, own 1 1, own 1 0
virtual 0 128 = none
classes 0 = - 0 -";

#[test]
fn overriding_methods_keep_their_tokens(rt: HostRuntime) {
    assert_eq!(rt; first_asked(rt.alloc(), OVERRIDING, OVERRIDDEN), "");
}

/// A class with a package-visible method. p/D extends p/C, and p/E extends q/G.
pub(crate) const HIDING: &str = "\
language
export q
import q/G 1 java/lang/Object - | 0 1 equals (Ljava/lang/Object;)Z | 1 1 a ()S | 2 0 o ()V
class 21 p/C java/lang/Object - | 1 a ()S | 0 b ()S | 4 c ()S | 0 d ()S
class 21 p/D p/C - | 0 e ()S | 0 b ()S | 1 f ()S
class 21 p/E q/G - | 1 n ()V | 0 o ()V";

const HIDDEN: &str = "\
own 0 = 1 128 2 129
own 1 = 130 128 3
own 2 = 3 128 # a package-visible method of an export file uses up its token and is overridden by nothing
virtual 0 128 = own 0 1, own 0 3
virtual 1 128 = own 1 1, own 0 3, own 1 0
virtual 2 0 = imported 8 0, imported 8 1, none, own 2 0";

#[test]
fn package_visible_methods_have_tokens_of_their_own(rt: HostRuntime) {
    assert_eq!(rt; first_asked(rt.alloc(), HIDING, HIDDEN), "");
}

/// An interface p/I, an abstract class p/P that has it, and p/R below that.
pub(crate) const ASKING: &str = "\
language
class 600 p/I java/lang/Object - | 401 v ()S
class 421 p/P java/lang/Object p/I | 1 <init> ()V
class 21 p/R p/P - | 1 <init> ()V | 1 v ()S";

const ASKED: &str = "\
own 0 = 0
own 1 = 0 1
own 2 = 0 1
virtual 1 0 = imported 0 1, own 1 1
virtual 2 0 = imported 0 1, own 2 1
virtual 0 0 = own 0 0";

#[test]
fn an_abstract_class_gets_a_token_for_each_added_method(rt: HostRuntime) {
    assert_eq!(rt; first_asked(rt.alloc(), ASKING, ASKED), "");
}

/// p/J extends p/K and p/L, which both extend p/I.
pub(crate) const COMMON: &str = "\
class 21 p/S p/T - | 1 l ()S | 1 n ()S
language
class 21 p/T java/lang/Object p/J,p/L | 1 j ()S | 1 l ()S | 1 k ()S | 1 i ()S
class 601 p/J java/lang/Object p/K,p/L | 401 j ()S | 401 i ()S
class 601 p/K java/lang/Object p/I | 401 k ()S
class 601 p/L java/lang/Object p/I | 401 l ()S
class 601 p/I java/lang/Object - | 401 i ()S";

const COUNTED: &str = "\
own 0 = 2 5
own 1 = 1 2 3 4
own 2 = 3 0
own 3 = 1
own 4 = 1
own 5 = 0
virtual 2 0 = own 2 1, own 3 0, own 4 0, own 2 0 # its own before those of the first superinterface
virtual 3 0 = own 5 0, own 3 0";

#[test]
fn a_common_interface_counts_once(rt: HostRuntime) {
    assert_eq!(rt; first_asked(rt.alloc(), COMMON, COUNTED), "");
}

const HOLDING: &str = "\
language
class 21 p/F java/lang/Object - | 2 a S | 1 b [B | 1 c S | 0 d Lp/F; | 4 e I \
    | 9 s S | 19 k S 1 | c t [B | a u S | 19 o Lp/F; 1 | 4 g Z";

/// The int has 1 and 2, and its second cell is no field; the first - is a constant's.
const HELD: &str = "\
own 0 = 6 4 0 5 1 0 - 1 - 2 3
fields 0 = 2 4 - 10 1 3 0 -";

#[test]
fn fields_stand_in_groups(rt: HostRuntime) {
    assert_eq!(rt; first_asked(rt.alloc(), HOLDING, HELD), "");
}

/// A class p/C, interfaces p/J and p/K below p/I, and an imported interface.
const SHARING: &str = "\
language
class 21 p/C java/lang/Object -
class 601 p/J java/lang/Object p/I
class 600 p/K java/lang/Object p/I
export javacard/framework
import javacard/framework/Shareable e01 java/lang/Object -";

/// p/I beside these, with an applet or none, and the tokens of the classes.
const SHARED: &str = "\
... ; class 601 p/I java/lang/Object javacard/framework/Shareable ; applet p/C = - 0 - 1
... ; class 601 p/I java/lang/Object - ; applet p/C = - - - -
... ; class 601 p/I java/lang/Object javacard/framework/Shareable = 0 1 - 2";

/// The first case with other tokens of its classes; nothing where there is none.
fn first_shared(alloc: Global, cases: &str) -> &str {
    for case in cases.lines() {
        let (package, answer) = question_and_answer(case);
        match tokens(alloc, SHARING, package) {
            Ok(tokens) => {
                if !are_classes(&tokens, 0, answer) {
                    return case;
                }
            }
            Err(_) => return case,
        }
    }
    ""
}

#[test]
fn a_package_with_applets_exports_shareable_interfaces(rt: HostRuntime) {
    assert_eq!(rt; first_shared(rt.alloc(), SHARED), "");
}
