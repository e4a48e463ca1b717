//! The operands of checkcast and instanceof, by the class that they name. Knows no look-up.

ghost use Rattle.std.specs.Prelude.{◌≡◌, ◌∷◌, ℕ, []};
ghost use Rattle.std.specs.Prelude.{IfOk, OnOk, ◌++◌};
ghost use Rattle.cjc_types.specs.Bytes.Spots.{part_of};
ghost use Rattle.cjc_jvm_semantics.specs.LowerScript.Sorts.{array_by, shape_named};
ghost use Rattle.cjc_ncode.specs.Written.{type_test};
ghost use Rattle.cjc_narrow.specs.Written.Working.Tests.{test_by};

use crate::written::descriptor::parsed;
use cjc_ncode::NInsn;
use cjc_types::bytes::{Bytes, NoMemory, Row};
use std::alloc::Global;

/// The operands of a type test.
#[derive(Clone, Copy)]
pub struct Test<'a> {
    pub kind: u8,
    pub class: Option<&'a [u8]>,
}

/// A test whether something is an array of these elements.
fn array_test(element: &[u8]) -> Option<Test<'_>>
    ensures { (op : ℕ) → test_by op result ≡ type_test op (array_by (part_of element.now)) }
{
    match element {
        [b'Z', ..] => Some(Test {
            kind: 10,
            class: None,
        }),
        [b'B', ..] => Some(Test {
            kind: 11,
            class: None,
        }),
        [b'S', ..] => Some(Test {
            kind: 12,
            class: None,
        }),
        [b'I', ..] => Some(Test {
            kind: 13,
            class: None,
        }),
        [b'L', b'[', ..] => None,
        [b'L', _] => None,
        [b'L', name @ .., _] => Some(Test {
            kind: 14,
            class: Some(name),
        }),
        _ => None,
    }
}

/// A test whether something is of a class or array type; None where no value is.
pub fn tested(class: &[u8]) -> Result<Option<Test<'_>>, NoMemory>
    ensures { IfOk result (λ test. (op : ℕ) → test_by op test ≡ type_test op (shape_named class.now)) }
{
    match class {
        [] => Ok(None),
        [b'[', element @ ..] => match parsed(class)? {
            Some(_) => Ok(array_test(element)),
            None => Ok(None),
        },
        _ => Ok(Some(Test {
            kind: 0,
            class: Some(class),
        })),
    }
}

/// Puts a test at the end.
pub(crate) fn put_test(
    out: &mut Row<NInsn>,
    alloc: Global,
    op: u8,
    class: &[u8],
) -> Result<(), NoMemory>
    ensures { OnOk result (out.new ≡ out.old ++ type_test op (shape_named class.now)) }
{
    let Some(test) = tested(class)? else {
        return Ok(());
    };
    let class = match test.class {
        Some(name) => Some(Bytes::copy_of(alloc, name)?),
        None => None,
    };
    out.push(NInsn::TypeTest {
        op,
        kind: test.kind,
        class,
    })
}
