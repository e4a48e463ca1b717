//! One package, altered in one place at a time: what is refused, and where.

use crate::drafts::{TestPackage, is_refusal, question_and_answer};
use cjc_bytes::{Fault, NoMemory, Row, Settings};
use cjc_code::{Codes, JInsn, MethodCode};
use cjc_subset::{check, names};
use std::alloc::Global;
use std::test::*;

/// The package. Its first method, f of p/T, has code. Each case alters one of these lines or adds one.
const PACKAGE: &str = "\
class T:p/T 21 java/lang/Object - | 9 s S | 1 i S | 9 f ()V 2 2 0 - | 2 h ()V | 8 <clinit> ()V
class A:p/A 21 java/lang/Object - | 1 v ()S | 2 m ()V | 9 s ()V | 1 <init> ()V
class B:p/B 21 p/A -
class C:p/C 421 java/lang/Object - | 401 a ()V
class I:p/I 601 java/lang/Object - | 401 w ()V
class D:p/D 21 q/A -
class E:p/E 421 java/lang/Object p/I | 4 w ()V
class App:p/App 21 javacard/framework/Applet - | 9 install ([BSB)V
language
export fw:javacard/framework
import javacard/framework/Applet 401 java/lang/Object -
export q
import q/A 1 java/lang/Object - | 19 c S | 9 d S | 1 e S | 0 4 p ()V | 1 0 o ()V
import q/I 601 java/lang/Object - | 0 401 i ()V
import q/K 401 java/lang/Object q/I
import q/Many 1 java/lang/Object \
    q/Ia,q/Ib,q/Ic,q/Id,q/Ie,q/If,q/Ig,q/Ih,q/Ii,q/Ij,q/Ik,q/Il,q/Im,q/In,q/Io,q/Ip
import q/Chars 601 java/lang/Object - | 0 401 l (C)V
import q/Ints 601 java/lang/Object - | 0 401 l (I)V
insn 0 nop";

const UNBROKEN: &str = "\
insn 0 nop = well
insn 1 invokevirtual p/B v ()S = well
insn 1 getstatic q/A c S = well
insn 1 invokestatic p/T f ()V = well
class B:p/B 21 p/A - | 9 m ()V = well # the inherited one is private
applets p/App aid01,aid02 = well
class T:p/T 21 java/lang/Object - | 9 s S | 1 i S | 9 f ()V 2 2 255 - | 2 h ()V | 8 <clinit> ()V = well";

/// Names at the second instruction of f, or at a handler that begins there.
const NAMES: &str = "\
insn 1 new p/No = 203 T p/T f()V 1
insn 1 checkcast [Lp/No; = 203 T p/T f()V 1
insn 1 checkcast [Q = 203 T p/T f()V 1
insn 1 invokevirtual p/A v (Lp/No;)S = 203 T p/T f()V 1
insn 1 getstatic p/T no S = 205 T p/T f()V 1
insn 1 invokevirtual p/A v ()V = 205 T p/T f()V 1
insn 1 invokevirtual [S equals (Ljava/lang/Object;)Z = 205 T p/T f()V 1
insn 1 invokespecial p/B <init> ()V = 205 T p/T f()V 1 # only its superclass has it
insn 1 invokevirtual p/A m ()V = 206 T p/T f()V 1 # private in another class
insn 1 invokevirtual p/T h ()V = 206 T p/T f()V 1 # private, not by invokespecial
insn 1 invokespecial q/A p ()V = 206 T p/T f()V 1 # protected elsewhere
insn 1 invokevirtual q/A o ()V = 206 T p/T f()V 1 # of another package
insn 1 invokevirtual p/A s ()V = 206 T p/T f()V 1
insn 1 invokestatic p/A v ()S = 206 T p/T f()V 1
insn 1 getstatic p/T i S = 206 T p/T f()V 1
insn 1 getfield p/T s S = 206 T p/T f()V 1
insn 1 putstatic q/A c S = 206 T p/T f()V 1
insn 1 invokestatic p/T <clinit> ()V = 206 T p/T f()V 1
insn 1 invokevirtual p/A <init> ()V = 206 T p/T f()V 1
insn 1 new [S = 206 T p/T f()V 1
insn 1 new p/C = 206 T p/T f()V 1
insn 1 new p/I = 206 T p/T f()V 1
insn 1 invokevirtual p/I w ()V = 205 T p/T f()V 1 # an interface by a Methodref
insn 1 invokevirtual q/K i ()V = 206 T p/T f()V 1
insn 1 invokeinterface p/A v ()S = 205 T p/T f()V 1 # a class by an InterfaceMethodref
insn 1 invokeinterface p/I equals (Ljava/lang/Object;)Z = 206 T p/T f()V 1
insn 1 invokespecial p/A v ()S = 206 T p/T f()V 1 # no superclass of p/T
class T:p/T 21 java/lang/Object - | 9 s S | 1 i S | 9 f ()V 2 2 1 p/No | 2 h ()V | 8 <clinit> ()V = 203 T p/T f()V 1
class T:p/T 21 java/lang/Object - | 9 s S | 1 i S | 9 f ()V 2 2 1 [S | 2 h ()V | 8 <clinit> ()V = 203 T p/T f()V 1";

/// The second instruction of f.
const INSTRUCTIONS: &str = "\
insn 1 newarray 5 = 301 T p/T f()V 1
insn 1 anewarray [S = 301 T p/T f()V 1
insn 1 checkcast [[S = 301 T p/T f()V 1
insn 1 getstatic q/A d S = 310 T p/T f()V 1
insn 1 getfield q/A e S = 310 T p/T f()V 1
insn 1 newarray 10 = 302 T p/T f()V 1
insn 1 iaload = 302 T p/T f()V 1
insn 1 iastore = 302 T p/T f()V 1";

/// The last three where the list allows int.
const WITH_INT: &str = "\
insn 1 newarray 10 = well
insn 1 iaload = well
insn 1 iastore = well";

const PACKAGES: &str = "\
class C:p/C 421 java/lang/Object q/Chars | 401 a ()V = 301 C p/C - 0 # by a method that p/C gets
class C:p/C 421 java/lang/Object q/Ints | 401 a ()V = 302 C p/C - 0
class T:p/T 21 java/lang/Object - | 9 s S | 1 i S | 1 x C | 9 f ()V 2 2 0 - | 2 h ()V | 8 <clinit> ()V \
    = 301 T p/T x:C 0
class A:p/A 21 java/lang/Object - | 1 v ()S | 2 m ()V | 9 s ()V | 1 <init> ()V | 1 x ([[S)V = 301 A p/A x([[S)V 0
class T:p/T 21 java/lang/Object - | 9 s S | 1 i S | 1 x [I | 9 f ()V 2 2 0 - | 2 h ()V | 8 <clinit> ()V \
    = 302 T p/T x:[I 0
class T:p/T 21 java/lang/Object - | 9 s S | 1 i S | 9 f ()V 2 2 0 - | 2 h ()V | 8 <clinit> ()V | 1 x ()I \
    = 302 T p/T x()I 0
class C:p/C 4421 java/lang/Object - | 401 a ()V = 304 C p/C - 0
class T:p/T 21 java/lang/Object - | 9 s S | 1 i S | 3 x S | 9 f ()V 2 2 0 - | 2 h ()V | 8 <clinit> ()V \
    = 304 T p/T x:S 0
class T:p/T 21 java/lang/Object - | 9 s S | 1 i S | 41 x S | 9 f ()V 2 2 0 - | 2 h ()V | 8 <clinit> ()V \
    = 304 T p/T x:S 0
class I:p/I 601 java/lang/Object - | 1 x S | 401 w ()V = 304 I p/I x:S 0
class T:p/T 21 java/lang/Object - | 9 s S | 1 i S | 9 f ()V 2 2 0 - | 2 h ()V | 8 <clinit> ()V | 101 x ()V \
    = 304 T p/T x()V 0
class C:p/C 421 java/lang/Object - | 401 a ()V | 409 x ()V = 304 C p/C x()V 0
class C:p/C 421 java/lang/Object - | 401 a ()V | 401 <init> ()V = 304 C p/C <init>()V 0
class A:p/A 21 java/lang/Object - | 1 v ()S | 2 m ()V | 9 s ()V | 1 <init> ()V | 1 <clinit> ()V \
    = 304 A p/A <clinit>()V 0
class B:p/B 21 p/A - | 0 v ()S = 305 B p/B v()S 0
class D:p/D 21 q/A - | 0 o ()V = 305 D p/D o()V 0
class B:p/B 21 p/A - | 9 v ()S = 306 B p/B v()S 0
class B:p/B 21 p/A - | 2 v ()S = 306 B p/B v()S 0
class B:p/B 21 p/A p/I = 307 B p/B - 0
class E:p/E 21 java/lang/Object p/I | 4 w ()V = 307 E p/E - 0 # p/E's w is not public
class C:p/C 21 java/lang/Object - | 401 a ()V = 307 C p/C - 0
applets p/No aid01 = 309 list - - 0
applets p/T aid01 = 309 list - - 0
applets p/App aid01,aid01 = 309 list - - 0
class D:p/D 21 q/Many - = 403 D p/D - 0
class T:p/T 21 java/lang/Object - | 9 s S | 1 i S | 9 f ()V 2 256 0 - | 2 h ()V | 8 <clinit> ()V = 404 T p/T f()V 0
class T:p/T 21 java/lang/Object - | 9 s S | 1 i S | 9 f ()V 256 2 0 - | 2 h ()V | 8 <clinit> ()V = 405 T p/T f()V 0
class T:p/T 21 java/lang/Object - | 9 s S | 1 i S | fields 255 | 9 f ()V 2 2 0 - | 2 h ()V | 8 <clinit> ()V \
    = 406 T p/T - 0
class T:p/T 21 java/lang/Object - | 9 s S | 1 i S | 9 f ()V 2 2 256 - | 2 h ()V | 8 <clinit> ()V = 407 list - - 0
applets p/App 256 = 409 list - - 0
class A:p/A 21 java/lang/Object p/I | 1 v ()S | 2 m ()V | 9 s ()V | 1 <init> ()V = 307 A p/A - 0 # before p/B
classes 249 21 = 401 list - - 0
classes 248 20 = 402 list - - 0";

/// The instructions of p/T's method f.
fn codes(alloc: Global, insns: Row<JInsn>) -> Result<Codes, NoMemory> {
    let mut codes = Row::new(alloc);
    codes.push(MethodCode {
        class: 0,
        method: 0,
        insns,
    })?;
    Ok(codes)
}

/// What is answered to the package that is altered so.
fn answered(alloc: Global, other: &str, ints: bool) -> Result<(), Fault> {
    let mut draft = TestPackage::new(alloc);
    draft.put_altered(alloc, PACKAGE, other)?;
    let codes = codes(alloc, draft.take_insns(alloc))?;
    let settings = Settings {
        ints,
        applets: draft.take_applets(alloc),
    };
    let world = draft.world(alloc)?;
    names(alloc, b"list", &world, &codes)?;
    check(alloc, b"list", &world, &codes, &settings)
}

fn is_answered(alloc: Global, case: &str, ints: bool) -> bool {
    let (other, answer) = question_and_answer(case);
    match answered(alloc, other, ints) {
        Ok(()) => answer == "well",
        Err(fault) => is_refusal(&fault, answer),
    }
}

/// The first case that is answered otherwise; nothing where there is none.
fn first_wrong(alloc: Global, cases: &str, ints: bool) -> &str {
    for case in cases.lines() {
        if !is_answered(alloc, case, ints) {
            return case;
        }
    }
    ""
}

#[test]
fn nothing_is_refused(rt: HostRuntime) {
    assert_eq!(rt; first_wrong(rt.alloc(), UNBROKEN, false), "");
}

#[test]
fn names_are_refused(rt: HostRuntime) {
    assert_eq!(rt; first_wrong(rt.alloc(), NAMES, false), "");
}

#[test]
fn instructions_are_refused(rt: HostRuntime) {
    assert_eq!(rt; first_wrong(rt.alloc(), INSTRUCTIONS, false), "");
}

#[test]
fn int_is_allowed(rt: HostRuntime) {
    assert_eq!(rt; first_wrong(rt.alloc(), WITH_INT, true), "");
}

#[test]
fn packages_are_refused(rt: HostRuntime) {
    assert_eq!(rt; first_wrong(rt.alloc(), PACKAGES, false), "");
}
