//! Instructions that move words of the stack. A row has the words before, from the lowest up, the bytes of the
//! instruction, and the words behind it.
//!
//! The method puts null and the words on the stack, makes the instruction, takes so many words into an array
//! from its last element down, and returns null, so that no word is left over.

use crate::runs::{Fixed, are_left, fixed_parts, printed};
use cjc_bytes::NoMemory;
use cjc_cases::{cut, question_and_answer};
use std::alloc::Global;

const ROWS: &str = "\
9 1 : 3B = 9
9 1 2 : 3C = 9
9 1 : 3D = 9 1 1
9 1 2 : 3E = 9 1 2 1 2
9 1 : 3F,10 = 9 1 1
9 1 : 3F,11 = 9 1 1
9 1 2 : 3F,12 = 9 2 1 2
9 1 2 3 : 3F,13 = 9 3 1 2 3
9 1 2 3 4 : 3F,14 = 9 4 1 2 3 4
9 1 2 3 4 5 : 3F,15 = 9 5 1 2 3 4 5
9 1 2 : 3F,20 = 9 1 2 1 2
9 1 2 : 3F,22 = 9 1 2 1 2
9 1 2 3 : 3F,23 = 9 2 3 1 2 3
9 1 2 3 4 : 3F,24 = 9 3 4 1 2 3 4
9 1 2 3 4 5 : 3F,25 = 9 4 5 1 2 3 4 5
9 1 2 3 4 5 6 : 3F,26 = 9 5 6 1 2 3 4 5 6
9 1 2 3 : 3F,30 = 9 1 2 3 1 2 3
9 1 2 3 : 3F,33 = 9 1 2 3 1 2 3
9 1 2 3 4 : 3F,34 = 9 2 3 4 1 2 3 4
9 1 2 3 4 5 : 3F,35 = 9 3 4 5 1 2 3 4 5
9 1 2 3 4 5 6 : 3F,36 = 9 4 5 6 1 2 3 4 5 6
9 1 2 3 4 5 6 7 : 3F,37 = 9 5 6 7 1 2 3 4 5 6 7
9 1 2 3 4 : 3F,40 = 9 1 2 3 4 1 2 3 4
9 1 2 3 4 : 3F,44 = 9 1 2 3 4 1 2 3 4
9 1 2 3 4 5 : 3F,45 = 9 2 3 4 5 1 2 3 4 5
9 1 2 3 4 5 6 : 3F,46 = 9 3 4 5 6 1 2 3 4 5 6
9 1 2 3 4 5 6 7 : 3F,47 = 9 4 5 6 7 1 2 3 4 5 6 7
9 1 2 3 4 5 6 7 8 : 3F,48 = 9 5 6 7 8 1 2 3 4 5 6 7 8
9 1 2 : 40,11 = 9 2 1
9 1 2 3 : 40,12 = 9 3 1 2
9 1 2 3 : 40,21 = 9 2 3 1
9 1 2 3 4 : 40,22 = 9 3 4 1 2";

/// The bytes that push words of one digit.
fn pushes(alloc: Global, words: &str) -> Result<String, NoMemory> {
    let mut code = String::new(alloc);
    for word in words.split(" ") {
        code.push_str("10,0")?;
        code.push_str(word)?;
        code.push_str(",")?;
    }
    Ok(code)
}

/// The method f, called once, for the words before, an instruction and so many words behind it: newarray byte
/// into local 0, the last index into local 1, null, the words, the instruction; then store_2, local 0, 1 and 2,
/// bastore, sinc, as long as the index is not negative.
fn question(
    alloc: Global,
    words: &str,
    instruction: &str,
    count: usize,
) -> Result<String, NoMemory> {
    let pushes = pushes(alloc, words)?;
    let last = count.wrapping_sub(1);
    let text = format!(in alloc;
        "f()[B : 80,14,00,03,10,{count:x},90,0B,2B,10,{last:x},30,01,{pushes}{instruction},31,18,1D,1E,38,59,01,FF,1D,63,F7,77"
    )?;
    Ok(text)
}

fn is_so(alloc: Global, fixed: &Fixed, row: &str) -> Result<bool, NoMemory> {
    let (before, wanted) = question_and_answer(row);
    let (words, instruction) = cut(before, " : ");
    let count = wanted.split(" ").count();
    let question = question(alloc, words, instruction, count)?;
    let report = format!(in alloc; "result null, array @1 [B {wanted}, done")?;
    let text = printed(alloc, fixed, &question)?;
    are_left(alloc, text.items(), &report)
}

fn first_wrong(alloc: Global, rows: &'static str) -> &'static str {
    let Ok(fixed) = fixed_parts(alloc) else {
        return rows;
    };
    for row in rows.lines() {
        match is_so(alloc, &fixed, row) {
            Ok(true) => {}
            _ => return row,
        }
    }
    ""
}

#[test]
fn words_are_moved(rt: HostRuntime) {
    assert_eq!(rt; first_wrong(rt.alloc(), ROWS), "");
}
