//! Look-up, selection and subtypes in one world of package and imported classes, and one broken package a rule.

use crate::drafts::{cut, is_refusal, list_of, member_id, number, question_and_answer, world_of};
use crate::found::is_found;
use cjc_bytes::{Fault, NoMemory};
use cjc_world::{Found, World};
use std::alloc::Global;
use std::test::*;

/// The world of look-up. Classes of the package: p/K, p/L, p/R, p/A and p/B, at 0 to 4. Classes of q: q/I, q/J,
/// q/Base, q/Deep and q/Odd, at 8 to 12, behind the eight of java/lang.
const MIXED: &str = "\
class p/K 601 java/lang/Object - | 19 x S | 19 z S | 401 k ()V
language
class p/L 601 java/lang/Object p/K | 19 y S
class p/R 601 java/lang/Object p/K | 19 x B | 19 y S | 401 k ()V | 401 r ()S
export q
import q/I 601 java/lang/Object - | 19 c S | 1 401 i ()V
import q/J 601 java/lang/Object q/I | 1 401 i ()V
import q/Base 1 java/lang/Object q/J,q/I | 1 1 m ()V | 2 1 n ()V | 0 1 equals (Ljava/lang/Object;)Z
import q/Deep 1 q/Base,java/lang/Object q/J,q/I
import q/Odd 1 java/lang/Object,q/Base q/J,q/I
class p/A 21 q/Base - | 1 x S | 2 m ()V | 9 n ()V | 1 o ()V
class p/B 21 p/A p/L,p/R | 1 b ()S";

/// What is found of a field or method by name, of a method by selection, and what is a subtype of what.
const LOOK_UP: &str = "\
field p/A x S = own 3 0
field p/B x S = own 0 0 # an interface's before the superclass's
field p/B x B = own 2 0
field p/B y S = own 1 0 # the first interface's
field p/B z S = own 0 1
field p/B c S = imported 8 0
field q/Deep c S = imported 8 0
field p/B w S = none
field p/No x S = none
field [S x S = none
method p/B b ()S = own 4 0
method p/B m ()V = own 3 1
method p/B n ()V = own 3 2
method p/B k ()V = own 0 2 # above p/L, before p/R
method p/R k ()V = own 2 2
method p/B r ()S = own 2 3
method p/B i ()V = imported 8 1 # above q/J, before it
method q/J i ()V = imported 9 0
method p/B equals (Ljava/lang/Object;)Z = imported 10 2
method q/Deep equals (Ljava/lang/Object;)Z = imported 10 2
method q/Odd equals (Ljava/lang/Object;)Z = imported 0 1 # supers in the order of the file
method p/K equals (Ljava/lang/Object;)Z = imported 0 1
method p/B m ()S = none
method p/No equals (Ljava/lang/Object;)Z = none
selected p/B b ()S = own 4 0
selected p/B m ()V = imported 10 0 # past a private method
selected p/B n ()V = imported 10 1 # past a static method
selected p/B o ()V = own 3 3
selected p/B k ()V = none # an interface's
selected [S equals (Ljava/lang/Object;)Z = imported 0 1
selected [Lp/A; equals (Ljava/lang/Object;)Z = imported 0 1
selected p/No equals (Ljava/lang/Object;)Z = none
subtype p/B p/B = yes
subtype p/B p/A = yes
subtype p/B p/K = yes
subtype p/B q/I = yes
subtype p/B java/lang/Object = yes
subtype p/K java/lang/Object = yes
subtype q/Deep q/J = yes
subtype p/A p/B = no
subtype p/A p/L = no
subtype p/L p/R = no
subtype java/lang/Object p/A = no
subtype [S java/lang/Object = yes
subtype [S [S = yes
subtype [S [B = no
subtype [Lp/B; [Lp/K; = yes
subtype [Lp/K; [Lp/B; = no
subtype [S [Ljava/lang/Object; = no
subtype [S p/A = no
subtype java/lang/Object [S = no
subtype p/No java/lang/Object = no";

/// Classes of the package: p/I, p/J, p/L, p/A, p/B, p/C and p/D, at 0 to 6, and the interface q/K.
const ADDING: &str = "\
class p/I 601 java/lang/Object - \
    | 8 <clinit> ()V | 401 a ()V | 401 equals (Ljava/lang/Object;)Z | 401 b ()V
class p/J 601 java/lang/Object p/I | 401 c ()V | 401 b ()V
class p/L 601 java/lang/Object - | 401 d ()V | 401 b ()V
language
export q
import q/K 601 java/lang/Object - | 1 401 second ()V | 0 401 first ()V
class p/A 421 java/lang/Object p/J,q/K | 1 a ()V | 9 c ()V
class p/B 421 p/A q/K,p/L
class p/C 21 p/A p/L
class p/D 421 java/lang/Object p/I | 2 b ()V";

/// A class of the package by its number and name, and the names of the methods that it gets, in order.
const ADDED: &str = "\
added 1 p/J = -
added 3 p/A = b c first second # past a static method, by token
added 4 p/B = d # what the superclass got is inherited
added 5 p/C = -
added 6 p/D = a b # past a private method";

fn look_up(alloc: Global, world: &World<'_>, question: &str) -> Result<Option<Found>, NoMemory> {
    let (kind, words) = cut(question, " ");
    let (class, _) = cut(words, " ");
    let id = member_id(alloc, words)?;
    match kind {
        "field" => Ok(world.find_field(&id)),
        "method" => Ok(world.find_method(&id)),
        "selected" => Ok(world.selected(class.as_bytes(), &id)),
        _ => Err(NoMemory),
    }
}

/// Whether these are the names of the methods that a class gets, which has this name.
fn gets(world: &World<'_>, class: u32, name: &str, names: &str) -> bool {
    if class as usize >= world.classes().items().len() {
        return false;
    }
    let mut rest = list_of(names);
    for id in world.added(class).items() {
        let (added, more) = cut(rest, " ");
        if id.class.items() != name.as_bytes() || id.name.items() != added.as_bytes() {
            return false;
        }
        rest = more;
    }
    rest.is_empty()
}

fn is_added(world: &World<'_>, words: &str, names: &str) -> bool {
    let (class, name) = cut(words, " ");
    match number(class) {
        Ok(class) => gets(world, class, name, names),
        Err(_) => false,
    }
}

fn is_subtype(world: &World<'_>, words: &str, answer: &str) -> bool {
    let (sub, sup) = cut(words, " ");
    if world.subtype(sub.as_bytes(), sup.as_bytes()) {
        answer == "yes"
    } else {
        answer == "no"
    }
}

fn is_looked_up(alloc: Global, world: &World<'_>, question: &str, answer: &str) -> bool {
    match look_up(alloc, world, question) {
        Ok(found) => is_found(found, answer),
        Err(_) => false,
    }
}

fn is_answered(alloc: Global, world: &World<'_>, case: &str) -> bool {
    let (question, answer) = question_and_answer(case);
    let (kind, words) = cut(question, " ");
    match kind {
        "added" => is_added(world, words, answer),
        "subtype" => is_subtype(world, words, answer),
        _ => is_looked_up(alloc, world, question, answer),
    }
}

/// The first case that a world answers otherwise; nothing where there is none.
fn first_in<'t>(alloc: Global, world: &World<'_>, cases: &'t str) -> &'t str {
    for case in cases.lines() {
        if !is_answered(alloc, world, case) {
            return case;
        }
    }
    ""
}

/// The first case that the world of these lines answers otherwise; nothing where there is none.
fn first_asked<'t>(alloc: Global, lines: &str, cases: &'t str) -> &'t str {
    match world_of(alloc, lines, "...") {
        Ok(world) => first_in(alloc, &world, cases),
        Err(_) => "no world",
    }
}

#[test]
fn members_and_subtypes_are_looked_up(rt: HostRuntime) {
    assert_eq!(rt; first_asked(rt.alloc(), MIXED, LOOK_UP), "");
}

#[test]
fn methods_are_added(rt: HostRuntime) {
    assert_eq!(rt; first_asked(rt.alloc(), ADDING, ADDED), "");
}

/// A package of more than one line, and the rule that it breaks.
const PACKAGES: &str = "\
class p/I 601 java/lang/Object - \
    | 8 <clinit> ()V | 401 a ()V | 401 equals (Ljava/lang/Object;)Z | 401 b ()V \
    ; class p/J 601 java/lang/Object p/I | 401 c ()V | 401 b ()V \
    ; class p/L 601 java/lang/Object - | 401 d ()V | 401 b ()V ; language ; export q \
    ; import q/K 601 java/lang/Object - | 1 401 second (Lq/No;)V | 0 401 first ()V \
    ; class p/A 421 java/lang/Object p/J,q/K | 1 a ()V | 9 c ()V ; class p/B 421 p/A q/K,p/L \
    ; class p/C 21 p/A p/L ; class p/D 421 java/lang/Object p/I | 2 b ()V \
    = 203 p/A p/A - 0 # a method of a class that no file has is added
class T.class:p/T 21 java/lang/Object - ; class U.class:p/T 21 java/lang/Object - ; language = 202 U.class p/T - 0
language ; class p/A 1 p/B - ; class p/B 1 p/A - = 204 p/A p/A - 0
language ; ... ; class p/A 421 java/lang/Object q/I ; class p/B 1 p/B - = 203 p/A p/A - 0 # the cycle is elsewhere
language ; ... ; class p/B 1 p/B - ; class p/A 421 java/lang/Object q/I = 204 p/B p/B - 0
language ; ... ; class p/A 421 p/B q/I ; class p/B 1 p/B - = 204 p/B p/B - 0 # it is above p/A";

/// An interface with a method of a class that no file has.
const ASKING: &str = "\
export q
import q/I 601 java/lang/Object - | 0 401 m (Lx/X;)V";

/// A class p/A and an interface p/I.
const BESIDE: &str = "\
class p/A 21 java/lang/Object -
class p/I 601 java/lang/Object -";

/// A class beside these, and the rule that is broken first.
const CLASSES: &str = "\
... ; class p/B 1 p/A p/I ; language = well
... ; class q/B 1 p/A p/I ; language = 201 q/B q/B - 0
... ; class p/q/B 1 p/A p/I ; language = 201 p/q/B p/q/B - 0
... ; class p/ 1 p/A p/I ; language = 201 p/ p/ - 0
... ; class p/A 1 java/lang/Object p/I ; language = 202 p/A p/A - 0
... ; class p/B 1 p/No p/I ; language = 203 p/B p/B - 0
... ; class p/B 1 p/A p/No ; language = 203 p/B p/B - 0
... ; class p/B 1 p/B p/I ; language = 204 p/B p/B - 0
... ; class p/B 601 java/lang/Object p/B ; language = 204 p/B p/B - 0
... ; class p/B 1 p/I p/I ; language = 208 p/B p/B - 0
... ; class p/B 1 p/A p/A ; language = 208 p/B p/B - 0
... ; class p/B 601 p/A p/I ; language = 208 p/B p/B - 0
... ; class q/B 1 p/No p/A ; language = 201 q/B q/B - 0 # the least of three";

/// The fields and the methods of a class, and the one that breaks a rule.
const MEMBERS: &str = "\
language ; class p/A 21 java/lang/Object - | 1 x [Lp/A; | 1 m (Lp/A;)V = well
language ; class p/A 21 java/lang/Object - | 1 x [Lp/A; | 1 x [Lp/A; | 1 m (Lp/A;)V | 1 m (Lp/A;)V \
    = 202 p/A p/A x:[Lp/A; 0
language ; class p/A 21 java/lang/Object - | 1 x [Lp/A; | 1 m (Lp/A;)V | 1 m (Lp/A;)V = 202 p/A p/A m(Lp/A;)V 0
language ; class p/A 21 java/lang/Object - | 1 x Lp/B; = 203 p/A p/A x:Lp/B; 0
language ; class p/A 21 java/lang/Object - | 1 x [Lp/A; | 1 m ()[Lp/B; = 203 p/A p/A m()[Lp/B; 0";

/// An export file of java/lang with Object, Throwable and all but one of the exceptions.
const LANGUAGE_BUT_ONE: &str = "\
export java/lang
import java/lang/Object 1 - - | 0 1 <init> ()V | 0 1 equals (Ljava/lang/Object;)Z
import java/lang/Throwable 1 java/lang/Object -
import java/lang/ArrayIndexOutOfBoundsException 1 java/lang/Throwable,java/lang/Object -
import java/lang/ArrayStoreException 1 java/lang/Throwable,java/lang/Object -
import java/lang/NegativeArraySizeException 1 java/lang/Throwable,java/lang/Object -
import java/lang/ArithmeticException 1 java/lang/Throwable,java/lang/Object -
import java/lang/ClassCastException 1 java/lang/Throwable,java/lang/Object -";

const NEEDED: &str = "\
language = well
export q = 207 list - - 0
... = 207 list - - 0
... ; import java/lang/NullPointerException 1 java/lang/Throwable,java/lang/Object - = well
... ; import java/lang/NullPointerException 1 java/lang/Object - = 207 list - - 0 # not below Throwable";

/// An export file of java/lang with the exceptions below Object.
const BELOW_OBJECT: &str = "\
export java/lang
import java/lang/Object 1 - - | 0 1 <init> ()V | 0 1 equals (Ljava/lang/Object;)Z
import java/lang/Throwable 1 java/lang/Object -
import java/lang/ArrayIndexOutOfBoundsException 1 java/lang/Object -
import java/lang/ArrayStoreException 1 java/lang/Object -
import java/lang/NegativeArraySizeException 1 java/lang/Object -
import java/lang/ArithmeticException 1 java/lang/Object -
import java/lang/ClassCastException 1 java/lang/Object -
import java/lang/NullPointerException 1 java/lang/Object -";

/// A class p/A and java/lang, and an export file of one class.
const IMPORTS: &str = "\
language ; class p/A 1 java/lang/Object - ; export q ; import q/C 1 java/lang/Throwable,java/lang/Object - = well
language ; class p/A 1 java/lang/Object - ; export p ; import q/C 1 java/lang/Throwable,java/lang/Object - \
    = 202 p - - 0
language ; class p/A 1 java/lang/Object - ; export q ; import p/A 1 java/lang/Throwable,java/lang/Object - \
    = 202 q p/A - 0
language ; class p/A 1 java/lang/Object - ; export q ; import q/C 1 p/A,java/lang/Object - = 208 q q/C - 0";

fn is_world(world: Result<World<'_>, Fault>, answer: &str) -> bool {
    match world {
        Ok(_) => answer == "well",
        Err(fault) => is_refusal(&fault, answer),
    }
}

/// The first case that is answered otherwise among the lines around it; nothing where there is none.
fn first_wrong<'t>(alloc: Global, around: &str, cases: &'t str) -> &'t str {
    for case in cases.lines() {
        let (package, answer) = question_and_answer(case);
        if !is_world(world_of(alloc, around, package), answer) {
            return case;
        }
    }
    ""
}

#[test]
fn broken_packages(rt: HostRuntime) {
    assert_eq!(rt; first_wrong(rt.alloc(), ASKING, PACKAGES), "");
}

#[test]
fn broken_classes(rt: HostRuntime) {
    assert_eq!(rt; first_wrong(rt.alloc(), BESIDE, CLASSES), "");
}

#[test]
fn broken_members(rt: HostRuntime) {
    assert_eq!(rt; first_wrong(rt.alloc(), "", MEMBERS), "");
}

#[test]
fn a_language_is_needed(rt: HostRuntime) {
    assert_eq!(rt; first_wrong(rt.alloc(), LANGUAGE_BUT_ONE, NEEDED), "");
    assert_eq!(rt;
        first_wrong(rt.alloc(), BELOW_OBJECT, "... = 207 list - - 0"),
        ""
    );
    assert_eq!(rt; first_wrong(rt.alloc(), "", "... = 207 list - - 0"), "");
}

#[test]
fn broken_imports(rt: HostRuntime) {
    assert_eq!(rt; first_wrong(rt.alloc(), "", IMPORTS), "");
}
