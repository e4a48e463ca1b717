//! One instruction of a class file (Java Virtual Machine Specification, 6.5), by its kind. Called for each
//! instruction of a frame under way.

ghost use Rattle.std.specs.Prelude.{◌≡◌, ◌<◌, ◌≤◌, ◌+◌, ◌^◌, length, IfOk, OnOk};
ghost use Rattle.cjc_jvm_semantics.specs.Effects.{effect};
ghost use Rattle.cjc_jvm_step.specs.Frame.Deeds.{FollowsEffect};
ghost use Rattle.cjc_jvm_step.specs.Step.Rows.{store_of};

use crate::frame::{Activation, Deed};
use crate::heap::{Heap, Statics};
use crate::step::arrays::{array_length, array_load};
use crate::step::fields::act_on_field;
use crate::step::lookups::LookUps;
use crate::step::objects::{new_numbers, new_of};
use crate::step::statics::act_on_static;
use crate::step::stores::array_store;
use crate::step::types::{check_cast, instance_of, new_references};
use cjc_jvm_semantics::bytecode::JOp;
use cjc_script::Value;
use cjc_script::bytes::NoMemory;
use std::alloc::Global;

/// One instruction of a frame, whose place it is.
pub fn act<'a, L: LookUps>(
    alloc: Global,
    links: &'a L,
    frame: &mut Activation<'a>,
    heap: &mut Heap<'a>,
    statics: &mut Statics<'a>,
    op: &'a JOp,
) -> Result<Deed<'a>, NoMemory>
    requires inside { frame.old.at < length frame.old.method.insns }
    requires few { length heap.old < 2 ^ 32 }
    ensures row { IfOk result (λ deed. FollowsEffect (effect (L.linked links.now) frame.old.method frame.old.at
        frame.old.locals (store_of heap.old statics.old) op.now frame.old.stack) deed frame.old frame.new
        (store_of heap.old statics.old) (store_of heap.new statics.new)) }
    ensures len { OnOk result (length heap.new ≤ length heap.old + 1) }
{
    match op {
        JOp::Nop => Ok(frame.do_nothing()),
        JOp::Null => frame.push(Value::Null),
        JOp::Number(z) => frame.push(Value::Num(*z)),
        JOp::Load { refs, local } => frame.load(*refs, *local),
        JOp::Store { refs, local } => Ok(frame.store(*refs, *local)),
        JOp::ArrayLoad(op) => array_load(frame, heap, *op),
        JOp::ArrayStore(op) => Ok(array_store(links, frame, heap, *op)),
        JOp::Stack(op) => frame.arrange(*op),
        JOp::Arith(op) => frame.calculate(*op),
        JOp::Inc { local, by } => Ok(frame.increase(*local, *by)),
        JOp::Narrow(op) => frame.narrow(*op),
        JOp::If { op, target } => Ok(frame.branch(*op, *target)),
        JOp::Goto(target) => Ok(frame.go_to(*target)),
        JOp::TableSwitch {
            other,
            low,
            targets,
        } => Ok(frame.switch_by_table(*other, *low, targets.items())),
        JOp::LookupSwitch { other, cases } => Ok(frame.switch_by_cases(*other, cases.items())),
        JOp::Return(op) => Ok(frame.leave(*op)),
        JOp::Static { put, field } => act_on_static(links, frame, statics, *put, field),
        JOp::Field { put, field } => act_on_field(links, frame, heap, *put, field),
        JOp::Call { op, method } => Ok(Deed::Invoke { op: *op, method }),
        JOp::New(class) => new_of(alloc, links, frame, heap, class.items()),
        JOp::NewArray(kind) => new_numbers(alloc, frame, heap, *kind),
        JOp::ANewArray(name) => new_references(alloc, links, frame, heap, name.items()),
        JOp::ArrayLength => array_length(frame, heap),
        JOp::Throw => Ok(frame.throw()),
        JOp::CheckCast(name) => check_cast(links, frame, heap, name.items()),
        JOp::InstanceOf(name) => instance_of(links, frame, heap, name.items()),
    }
}
