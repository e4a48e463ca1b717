//! Look-up, selection and subtypes in one world of package and imported classes, and the methods that classes get.

use crate::rules::drafts::{list_of, member_id, world_of};
use crate::rules::found::is_found;
use cjc_tests_files::cases::{cut, number, question_and_answer};
use cjc_vtable::bytes::NoMemory;
use cjc_vtable::world::{Found, World};
use std::alloc::Global;
use std::test::*;

/// The world of look-up. Classes of the package: p/K, p/L, p/R, p/A and p/B, at 0 to 4. Classes of q: q/I, q/J,
/// q/Base, q/Deep and q/Odd, at 8 to 12, behind the eight of java/lang.
const MIXED: &str = "\
class 601 p/K java/lang/Object - | 19 x S 1 | 19 z S 1 | 401 k ()V
language
class 601 p/L java/lang/Object p/K | 19 y S 1
class 601 p/R java/lang/Object p/K | 19 x B 1 | 19 y S 1 | 401 k ()V | 401 r ()S
export q
import q/I 601 java/lang/Object - | 19 c S | 1 401 i ()V
import q/J 601 java/lang/Object q/I | 1 401 i ()V
import q/Base 1 java/lang/Object q/J,q/I | 1 1 m ()V | 2 1 n ()V | 0 1 equals (Ljava/lang/Object;)Z
import q/Deep 1 q/Base,java/lang/Object q/J,q/I
import q/Odd 1 java/lang/Object,q/Base q/J,q/I
class 21 p/A q/Base - | 1 x S | 2 m ()V | 9 n ()V | 1 o ()V
class 21 p/B p/A p/L,p/R | 1 b ()S";

/// What is found of a field or method by name, of a method by selection, and what is a subtype of what.
const LOOK_UP: &str = "\
field p/A x S = own 3 0
field p/B x S = own 0 0 # an interface's before the superclass's
field p/B x B = own 2 0
field p/B y S = own 1 0 # the first interface's
field p/B z S = own 0 1
field p/B c S = imported 8 0
field q/Deep c S = imported 8 0
field p/B w S = none
field p/No x S = none
field [S x S = none
method p/B b ()S = own 4 0
method p/B m ()V = own 3 1
method p/B n ()V = own 3 2
method p/B k ()V = own 0 2 # above p/L, before p/R
method p/R k ()V = own 2 2
method p/B r ()S = own 2 3
method p/B i ()V = imported 8 1 # above q/J, before it
method q/J i ()V = imported 9 0
method p/B equals (Ljava/lang/Object;)Z = imported 10 2
method q/Deep equals (Ljava/lang/Object;)Z = imported 10 2
method q/Odd equals (Ljava/lang/Object;)Z = imported 0 1 # supers in the order of the file
method p/K equals (Ljava/lang/Object;)Z = imported 0 1
method p/B m ()S = none
method p/No equals (Ljava/lang/Object;)Z = none
selected p/B b ()S = own 4 0
selected p/B m ()V = imported 10 0 # past a private method
selected p/B n ()V = imported 10 1 # past a static method
selected p/B o ()V = own 3 3
selected p/B k ()V = none # an interface's
selected [S equals (Ljava/lang/Object;)Z = imported 0 1
selected [Lp/A; equals (Ljava/lang/Object;)Z = imported 0 1
selected p/No equals (Ljava/lang/Object;)Z = none
subtype p/B p/B = yes
subtype p/B p/A = yes
subtype p/B p/K = yes
subtype p/B q/I = yes
subtype p/B java/lang/Object = yes
subtype p/K java/lang/Object = yes
subtype q/Deep q/J = yes
subtype p/A p/B = no
subtype p/A p/L = no
subtype p/L p/R = no
subtype java/lang/Object p/A = no
subtype [S java/lang/Object = yes
subtype [S [S = yes
subtype [S [B = no
subtype [Lp/B; [Lp/K; = yes
subtype [Lp/K; [Lp/B; = no
subtype [S [Ljava/lang/Object; = no
subtype [S p/A = no
subtype java/lang/Object [S = no
subtype p/No java/lang/Object = no";

/// Classes of the package: p/I, p/J, p/L, p/A, p/B, p/C and p/D, at 0 to 6, and the interface q/K.
const ADDING: &str = "\
class 601 p/I java/lang/Object - \
    | 8 <clinit> ()V | 401 a ()V | 401 equals (Ljava/lang/Object;)Z | 401 b ()V
class 601 p/J java/lang/Object p/I | 401 c ()V | 401 b ()V
class 601 p/L java/lang/Object - | 401 d ()V | 401 b ()V
language
export q
import q/K 601 java/lang/Object - | 1 401 second ()V | 0 401 first ()V
class 421 p/A java/lang/Object p/J,q/K | 1 a ()V | 9 c ()V
class 421 p/B p/A q/K,p/L
class 21 p/C p/A p/L
class 421 p/D java/lang/Object p/I | 2 b ()V";

/// A class of the package by its number and name, and the names of the methods that it gets, in order.
const ADDED: &str = "\
added 1 p/J = -
added 3 p/A = b c first second # past a static method, by token
added 4 p/B = d # what the superclass got is inherited
added 5 p/C = -
added 6 p/D = a b # past a private method";

fn look_up(alloc: Global, world: &World<'_>, question: &str) -> Result<Option<Found>, NoMemory> {
    let (kind, words) = cut(question, " ");
    let (class, _) = cut(words, " ");
    let id = member_id(alloc, words)?;
    match kind {
        "field" => Ok(world.find_field(&id)),
        "method" => Ok(world.find_method(&id)),
        "selected" => Ok(world.selected(class.as_bytes(), &id)),
        _ => Err(NoMemory),
    }
}

/// Whether these are the names of the methods that a class gets, which has this name.
fn gets(world: &World<'_>, class: u32, name: &str, names: &str) -> bool {
    if class as usize >= world.classes().items().len() {
        return false;
    }
    let mut rest = list_of(names);
    for id in world.added(class).items() {
        let (added, more) = cut(rest, " ");
        if id.class.items() != name.as_bytes() || id.name.items() != added.as_bytes() {
            return false;
        }
        rest = more;
    }
    rest.is_empty()
}

fn is_added(world: &World<'_>, words: &str, names: &str) -> bool {
    let (class, name) = cut(words, " ");
    match number(class) {
        Ok(class) => gets(world, class, name, names),
        Err(_) => false,
    }
}

fn is_subtype(world: &World<'_>, words: &str, answer: &str) -> bool {
    let (sub, sup) = cut(words, " ");
    if world.subtype(sub.as_bytes(), sup.as_bytes()) {
        answer == "yes"
    } else {
        answer == "no"
    }
}

fn is_looked_up(alloc: Global, world: &World<'_>, question: &str, answer: &str) -> bool {
    match look_up(alloc, world, question) {
        Ok(found) => is_found(found, answer),
        Err(_) => false,
    }
}

fn is_answered(alloc: Global, world: &World<'_>, case: &str) -> bool {
    let (question, answer) = question_and_answer(case);
    let (kind, words) = cut(question, " ");
    match kind {
        "added" => is_added(world, words, answer),
        "subtype" => is_subtype(world, words, answer),
        _ => is_looked_up(alloc, world, question, answer),
    }
}

/// The first case that a world answers otherwise; nothing where there is none.
fn first_in<'t>(alloc: Global, world: &World<'_>, cases: &'t str) -> &'t str {
    for case in cases.lines() {
        if !is_answered(alloc, world, case) {
            return case;
        }
    }
    ""
}

/// The first case that the world of these lines answers otherwise; nothing where there is none.
fn first_asked<'t>(alloc: Global, lines: &str, cases: &'t str) -> &'t str {
    match world_of(alloc, lines, "...") {
        Ok(world) => first_in(alloc, &world, cases),
        Err(_) => "no world",
    }
}

#[test]
fn members_and_subtypes_are_looked_up(rt: HostRuntime) {
    assert_eq!(rt; first_asked(rt.alloc(), MIXED, LOOK_UP), "");
}

#[test]
fn methods_are_added(rt: HostRuntime) {
    assert_eq!(rt; first_asked(rt.alloc(), ADDING, ADDED), "");
}
