//! What a class inherits where an export file names a super that no file has, or no super at all.

use crate::drafts::{TestPackage, cut, is_refusal, question_and_answer};
use cjc_bytes::{Fault, Row, Settings};
use cjc_subset::check;
use std::alloc::Global;
use std::test::*;

/// An interface without methods, whose file names java/lang/Object as superclass.
const AROUND: &str = "\
class p/I 601 java/lang/Object -
language
export q";

/// p/W, which has an applet line, extends q/B and implements p/I; the supers that q/B lists, and what is answered.
const CASES: &str = "\
class p/W 21 q/B p/I | 9 install ([BSB)V \
    ; ... ; import q/B 1 javacard/framework/Applet,java/lang/Object - = well # no file has javacard/framework/Applet
class p/W 21 q/B p/I | 9 install ([BSB)V \
    ; ... ; import q/B 1 java/lang/Object - = 309 list - - 0
class p/W 21 q/B p/I | 9 install ([BSB)V | 0 equals (Ljava/lang/Object;)Z \
    ; ... ; import q/B 1 javacard/framework/Applet - = well # Object is no superclass of p/W, though p/I names it
class p/W 21 q/B p/I | 9 install ([BSB)V | 9 equals (Ljava/lang/Object;)Z \
    ; ... ; import q/B 1 javacard/framework/Applet - = well
class p/W 21 q/B p/I | 9 install ([BSB)V | 0 equals (Ljava/lang/Object;)Z \
    ; ... ; import q/B 1 javacard/framework/Applet,java/lang/Object - = 305 p/W p/W equals(Ljava/lang/Object;)Z 0
class p/W 21 q/B p/I | 9 install ([BSB)V | 9 equals (Ljava/lang/Object;)Z \
    ; ... ; import q/B 1 javacard/framework/Applet,java/lang/Object - = 306 p/W p/W equals(Ljava/lang/Object;)Z 0";

/// What is answered to a package with an applet line for p/W.
fn answered(alloc: Global, package: &str) -> Result<(), Fault> {
    let mut draft = TestPackage::new(alloc);
    draft.put_case(alloc, AROUND, package)?;
    draft.put_case(alloc, "", "applets p/W aid01")?;
    let settings = Settings {
        ints: false,
        applets: draft.take_applets(alloc),
    };
    let world = draft.world(alloc)?;
    check(alloc, b"list", &world, &Row::new(alloc), &settings)
}

fn is_answered(alloc: Global, case: &str) -> bool {
    let (package, answer) = question_and_answer(case);
    match answered(alloc, package) {
        Ok(()) => answer == "well",
        Err(fault) => is_refusal(&fault, answer),
    }
}

/// The first case that is answered otherwise; nothing where there is none.
fn first_wrong(alloc: Global, cases: &str) -> &str {
    for case in cases.lines() {
        if !is_answered(alloc, case) {
            return case;
        }
    }
    ""
}

#[test]
fn supers_in_no_file(rt: HostRuntime) {
    assert_eq!(rt; first_wrong(rt.alloc(), CASES), "");
}
