//! The virtual methods that the classes of the package have by token: of each class it is kept what its superclass
//! has (Java Card Virtual Machine Specification 2.2.2, sections 4.3.7 and 6.8). Called by `members` and `spots`.

ghost use Rattle.std.specs.Prelude.{◌≡◌, ◌≤◌, IfOk, false, get_or, length, map};
ghost use Rattle.std.specs.Option.{option_copied};
ghost use Rattle.cjc_check_index.specs.Imported.Tokens.{AreTokens, all_tokens};
ghost use Rattle.cjc_check_index.specs.Lookup.Indexed.{IsIndexed};
ghost use Rattle.cjc_check_tables.specs.Members.Working.Above.{AreAbove, class_answer, has_among, table_answer};
ghost use Rattle.cjc_check_rules.specs.Classes.{classes_at};
ghost use Rattle.cjc_check_rules.specs.Spots.{item_at};

use cjc_capread::bytes::{NoMemory, Row};
use cjc_capread::{ClassEntry, ClassRef};
use cjc_check_index::imported::Tokens;
use cjc_check_index::lookup::Names;
use std::alloc::Global;

/// The answer of a table from a base on, or what stands above where the base does.
fn table_answer(base: u8, table: &[u64], place: u8, above: bool) -> bool
    ensures { result ≡ table_answer base table.now place above }
{
    if base <= place {
        usize::from(place - base) < table.len()
    } else {
        above
    }
}

/// Whether a class has a virtual method of a token, where it is known whether its superclass has one.
fn class_answer(class: &ClassEntry, token: u8, above: bool) -> bool
    ensures { result ≡ class_answer class.now token above }
{
    if token < 0x80 {
        table_answer(
            class.public_base,
            class.public_methods.items(),
            token,
            above,
        )
    } else {
        table_answer(
            class.package_base,
            class.package_methods.items(),
            token - 0x80,
            above,
        )
    }
}

/// An answer that is kept, no where there is none.
fn answer(answers: &[bool], at: usize) -> bool
    ensures { result ≡ get_or answers.now at false }
{
    at < answers.len() && answers[at]
}

/// Whether the class of a class_ref has a virtual method of a token, as far as the first classes go, of which it is
/// kept.
pub(crate) fn has_among(
    names: &Names<'_>,
    tokens: &Tokens,
    above: &[Row<bool>],
    class: ClassRef,
    token: u8,
) -> bool
    requires ready { IsIndexed names.now }
    requires kept { AreTokens names.now.exports.now tokens.now }
    requires known { AreAbove names.now.parts.now.class.now names.now.exports.now above.now }
    requires within { length above.now ≤ length names.now.parts.now.class.now.classes }
    ensures { result ≡ has_among names.now.parts.now.class.now names.now.exports.now (length above.now) class token }
{
    let classes = names.parts.class.classes.items();
    match class {
        ClassRef::Inside(offset) => match names.classes.binary_search(&offset) {
            Ok(at) => {
                if at < above.len() {
                    let inherits = answer(above[at].items(), usize::from(token));
                    class_answer(&classes[at], token, inherits)
                } else {
                    false
                }
            }
            Err(_) => false,
        },
        ClassRef::Outside { package, class } => tokens.has_virtual(names, package, class, token),
    }
}

/// By token, whether the class of a class_ref has a virtual method.
fn answers_of(
    alloc: Global,
    names: &Names<'_>,
    tokens: &Tokens,
    above: &[Row<bool>],
    class: ClassRef,
) -> Result<Row<bool>, NoMemory>
    requires ready { IsIndexed names.now }
    requires kept { AreTokens names.now.exports.now tokens.now }
    requires known { AreAbove names.now.parts.now.class.now names.now.exports.now above.now }
    requires within { length above.now ≤ length names.now.parts.now.class.now.classes }
    ensures { IfOk result (λ row. row ≡ map (has_among names.now.parts.now.class.now names.now.exports.now
        (length above.now) class) all_tokens) }
{
    let mut row = Row::new(alloc);
    for token in 0..256usize {
        row.push(has_among(names, tokens, above, class, token as u8))?;
    }
    Ok(row)
}

/// Of each class, by token, whether its superclass has a virtual method.
pub(crate) fn above_of(
    alloc: Global,
    names: &Names<'_>,
    tokens: &Tokens,
) -> Result<Row<Row<bool>>, NoMemory>
    requires ready { IsIndexed names.now }
    requires kept { AreTokens names.now.exports.now tokens.now }
    ensures each { IfOk result (λ r. AreAbove names.now.parts.now.class.now names.now.exports.now r) }
    ensures all { IfOk result (λ r. length r ≡ length names.now.parts.now.class.now.classes) }
{
    let mut above = Row::new(alloc);
    for class in names.parts.class.classes.items() {
        let row = answers_of(alloc, names, tokens, above.items(), class.superclass)?;
        above.push(row)?;
    }
    Ok(above)
}

/// The class of the package that begins at an offset.
pub(crate) fn class_at<'a>(names: &Names<'a>, offset: u64) -> Option<&'a ClassEntry>
    requires { IsIndexed names.now }
    ensures { option_copied result ≡ item_at (classes_at names.now.parts.now.class.now) offset }
{
    let classes = names.parts.class.classes.items();
    match names.classes.binary_search(&offset) {
        Ok(at) => {
            if at < classes.len() {
                Some(&classes[at])
            } else {
                None
            }
        }
        Err(_) => None,
    }
}
