//! Whether a method with code works on int. Called by whoever writes code, which can't be written for such methods yet.
//! It tests no rule: what names int at all is told by `types`.

ghost use Rattle.std.specs.Prelude.{◌≡◌};
ghost use Rattle.std.specs.List.{list_any};
ghost use Rattle.cjc_subset.specs.Ints.{any_works_on_int, code_works_on_int, works_on_int};

use crate::types::{T_INT, is_int_desc};
use cjc_code::{JInsn, JOp, MethodCode, jvm};
use cjc_world::World;

/// Whether an instruction loads, stores or makes elements that are ints, or names a member in whose descriptor int
/// stands.
#[tactic(auto, unfolding(crate::specs::Ints::works_on_int))]
fn works_on_int(op: &JOp) -> bool
    ensures { result ≡ works_on_int op.now }
{
    match op {
        JOp::ArrayLoad(op) => *op == jvm::IALOAD,
        JOp::ArrayStore(op) => *op == jvm::IASTORE,
        JOp::Static { field, .. } => is_int_desc(field.desc.items()),
        JOp::Field { field, .. } => is_int_desc(field.desc.items()),
        JOp::Call { method, .. } => is_int_desc(method.desc.items()),
        JOp::NewArray(number) => *number == T_INT,
        _ => false,
    }
}

/// Whether one of these instructions does.
fn do_any_work_on_int(insns: &[JInsn]) -> bool
    ensures { result ≡ list_any (λ i. works_on_int i.op) insns.now }
{
    insns.iter().any(|insn| works_on_int(&insn.op))
}

/// Whether int stands in the descriptor of the method that has these instructions, or one of them works on int.
#[tactic(auto, unfolding(crate::specs::Ints::code_works_on_int))]
fn code_works_on_int(world: &World<'_>, code: &MethodCode) -> bool
    ensures { result ≡ code_works_on_int world.now code.now }
{
    match world.classes().items().get(code.class as usize) {
        None => false,
        Some(class) => match class.methods.items().get(code.method as usize) {
            None => false,
            Some(method) => {
                is_int_desc(method.desc.items()) || do_any_work_on_int(code.insns.items())
            }
        },
    }
}

/// Whether one of these methods, which are all of the package that have code, works on int.
pub fn any_works_on_int(world: &World<'_>, codes: &[MethodCode]) -> bool
    ensures { result ≡ any_works_on_int world.now codes.now }
{
    codes.iter().any(|code| code_works_on_int(world, code))
}
