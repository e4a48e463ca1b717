//! Calls (Java Virtual Machine Specification, 6.5: invokestatic, invokespecial, invokevirtual, invokeinterface).

ghost use Rattle.std.specs.Prelude.{◌≡◌, ◌<◌, ◌≤◌, ◌+◌, ◌^◌, ◌∷◌, List, Some, true, length, take, reverse, slice_get};
ghost use Rattle.std.specs.Prelude.{option_map, IfOk, OnOk};
ghost use Rattle.cjc_jvm_semantics.specs.Machine.{Frame, are_of_sorts, heap_of, holder_of, at_callee, at_selected};
ghost use Rattle.cjc_jvm_semantics.specs.Machine.{on_receiver, at_call, after_lookup, with_types};
ghost use Rattle.cjc_jvm_step.specs.Script.declared.value.Value.{Value};
ghost use Rattle.cjc_jvm_semantics.specs.Linked;
ghost use Rattle.cjc_jvm.specs.Acts.Meant.{sort_meant};
ghost use Rattle.cjc_jvm_step.specs.Step.Names.{callee_of, selection_of, IsCall};
ghost use Rattle.cjc_jvm.specs.States.{Leads, objects_at_most};

use crate::acts::{Signature, Sort, are_of_sorts, signature_of};
use crate::turns::after::After;
use crate::turns::machine::Machine;
use crate::turns::notes::copy_of;
use crate::turns::throws::class_of;
use cjc_jvm_semantics::bytes::{MemberId, NoMemory, Row};
use cjc_jvm_semantics::script::{Outcome, Value};
use cjc_jvm_step::frame::{Activation, Caller, Exception};
use cjc_jvm_step::step::{Call, Callee, LookUps};
use std::alloc::Global;

// A receiver before its arguments.
fn with_receiver(alloc: Global, number: u32, args: &[Value]) -> Result<Row<Value>, NoMemory>
    ensures { IfOk result (λ row. row ≡ Value.Obj number ∷ args.now) }
{
    let mut row = Row::new(alloc);
    row.push(Value::Obj(number))?;
    for arg in args {
        row.push(*arg)?;
    }
    Ok(row)
}

// Whether the operands of a call are of its types.
fn operands_fit(types: &Signature<'_>, frame: &Activation<'_>) -> bool
    ensures fit { result ≡ are_of_sorts types.now.params (reverse (take (length types.now.params) frame.now.stack)) }
    ensures enough { result ≡ true → length types.now.params ≤ length frame.now.stack }
{
    let count = types.count();
    if count > frame.height() {
        return false;
    }
    are_of_sorts(types.params(), frame.args(count))
}

impl<'a> Machine<'a> {
    // What a call reaches; an abstract method is stuck at the call.
    fn reach<L: LookUps>(
        &mut self,
        alloc: Global,
        links: &L,
        callee: Callee<'a>,
        id: &MemberId,
        returned: Option<Sort<'_>>,
        args: &[Value],
        frame: Activation<'a>,
    ) -> Result<After<'a>, NoMemory>
        requires inside { frame.at < length frame.method.insns }
        requires few { objects_at_most self.old < 2 ^ 32 }
        ensures next { IfOk result (λ after. (before : List Frame) →
            Leads (at_callee (L.linked links.now) (Some (callee_of callee.entry id.now))
            (option_map sort_meant returned.entry) args.now frame.entry self.old.frames
            (record self.old { frames = before })) after self.new) }
        ensures most { OnOk result (objects_at_most self.new ≤ objects_at_most self.old + 1) }
        ensures spent { OnOk result (self.new.spent ≡ self.old.spent) }
    {
        match callee {
            Callee::Inside(method) => {
                if method.is_abstract {
                    return Ok(After::Ended(Outcome::Stuck(frame.offset())));
                }
                let entered = Activation::enter(alloc, method, args)?;
                self.callers.push(Caller::new(frame))?;
                Ok(After::On(Some(entered)))
            }
            Callee::Abroad(class) => {
                self.call_abroad(alloc, links, class, id, returned, args, frame)
            }
        }
    }

    // By the type of the receiver, which was below the arguments.
    fn send<L: LookUps>(
        &mut self,
        alloc: Global,
        links: &'a L,
        op: u8,
        id: &MemberId,
        returned: Option<Sort<'_>>,
        number: u32,
        args: &[Value],
        frame: Activation<'a>,
    ) -> Result<After<'a>, NoMemory>
        requires inside { frame.at < length frame.method.insns }
        requires few { objects_at_most self.old < 2 ^ 32 }
        ensures next { IfOk result (λ after. (before : List Frame) →
            Leads (at_selected (L.linked links.now) (λ type. selection_of
            ((L.linked links.now).call (holder_of frame.entry) op id.now) type)
            (slice_get (heap_of self.old) number) (option_map sort_meant returned.entry)
            (Value.Obj number ∷ args.now) frame.entry self.old.frames (record self.old { frames = before })) after
            self.new) }
        ensures most { OnOk result (objects_at_most self.new ≤ objects_at_most self.old + 1) }
        ensures spent { OnOk result (self.new.spent ≡ self.old.spent) }
    {
        let Some(receiver) = self.heap.type_at(number) else {
            return Ok(After::Ended(Outcome::Stuck(frame.offset())));
        };
        let Some(callee) = links.selected(frame.holder(), op, id, receiver) else {
            return Ok(After::Ended(Outcome::Stuck(frame.offset())));
        };
        let all = with_receiver(alloc, number, args)?;
        self.reach(alloc, links, callee, id, returned, all.items(), frame)
    }

    // By the receiver, which is below the arguments; null raises.
    fn receive<L: LookUps>(
        &mut self,
        alloc: Global,
        links: &'a L,
        op: u8,
        id: &MemberId,
        returned: Option<Sort<'_>>,
        args: &[Value],
        frame: Activation<'a>,
    ) -> Result<After<'a>, NoMemory>
        requires inside { frame.at < length frame.method.insns }
        requires few { objects_at_most self.old < 2 ^ 32 }
        ensures next { IfOk result (λ after. (before : List Frame) →
            Leads (on_receiver (L.linked links.now) (λ type. selection_of
            ((L.linked links.now).call (holder_of frame.entry) op id.now) type) frame.entry.stack
            (option_map sort_meant returned.entry) args.now frame.entry self.old.frames
            (record self.old { frames = before })) after self.new) }
        ensures most { OnOk result (objects_at_most self.new ≤ objects_at_most self.old + 1) }
        ensures spent { OnOk result (self.new.spent ≡ self.old.spent) }
    {
        match frame.value() {
            Some(Value::Obj(number)) => {
                let mut caller = frame;
                caller.forget(1);
                self.send(alloc, links, op, id, returned, number, args, caller)
            }
            Some(Value::Null) => {
                self.raise(alloc, links, frame, class_of(Exception::NullPointer))
            }
            Some(Value::Num(_)) => Ok(After::Ended(Outcome::Stuck(frame.offset()))),
            None => Ok(After::Ended(Outcome::Stuck(frame.offset()))),
        }
    }

    // A call whose member is found and whose operands are of its types.
    fn call_with<L: LookUps>(
        &mut self,
        alloc: Global,
        links: &'a L,
        call: Call<'a>,
        op: u8,
        id: &MemberId,
        returned: Option<Sort<'_>>,
        args: &[Value],
        frame: Activation<'a>,
    ) -> Result<After<'a>, NoMemory>
        requires inside { frame.at < length frame.method.insns }
        requires few { objects_at_most self.old < 2 ^ 32 }
        ensures next { IfOk result (λ after. (before : List Frame) (found : Linked.Call) →
            IsCall id.now (Some call.entry) (Some found) → (L.linked links.now).call (holder_of frame.entry) op id.now
            ≡ Some found →
            Leads (at_call (L.linked links.now) found (option_map sort_meant returned.entry) args.now frame.entry
            self.old.frames (record self.old { frames = before })) after self.new) }
        ensures most { OnOk result (objects_at_most self.new ≤ objects_at_most self.old + 1) }
        ensures spent { OnOk result (self.new.spent ≡ self.old.spent) }
    {
        match call {
            Call::OnClass(callee) => self.reach(alloc, links, callee, id, returned, args, frame),
            Call::OnObject => self.receive(alloc, links, op, id, returned, args, frame),
        }
    }

    // A call whose member is found, by the types of its descriptor.
    fn call_by<L: LookUps>(
        &mut self,
        alloc: Global,
        links: &'a L,
        call: Call<'a>,
        op: u8,
        id: &MemberId,
        types: &Signature<'_>,
        frame: Activation<'a>,
    ) -> Result<After<'a>, NoMemory>
        requires inside { frame.at < length frame.method.insns }
        requires few { objects_at_most self.old < 2 ^ 32 }
        ensures next { IfOk result (λ after. (before : List Frame) (found : Linked.Call) →
            IsCall id.now (Some call.entry) (Some found) → (L.linked links.now).call (holder_of frame.entry) op id.now
            ≡ Some found →
            Leads (with_types (L.linked links.now) found (Some types.now) frame.entry self.old.frames
            (record self.old { frames = before })) after self.new) }
        ensures most { OnOk result (objects_at_most self.new ≤ objects_at_most self.old + 1) }
        ensures spent { OnOk result (self.new.spent ≡ self.old.spent) }
    {
        if !operands_fit(types, &frame) {
            return Ok(After::Ended(Outcome::Stuck(frame.offset())));
        }
        let count = types.count();
        let args = copy_of(alloc, frame.args(count))?;
        let mut caller = frame;
        caller.forget(count);
        self.call_with(
            alloc,
            links,
            call,
            op,
            id,
            types.returned(),
            args.items(),
            caller,
        )
    }

    /// A call by name.
    pub fn call<L: LookUps>(
        &mut self,
        alloc: Global,
        links: &'a L,
        op: u8,
        id: &MemberId,
        frame: Activation<'a>,
    ) -> Result<After<'a>, NoMemory>
        requires inside { frame.at < length frame.method.insns }
        requires few { objects_at_most self.old < 2 ^ 32 }
        ensures next { IfOk result (λ after. (before : List Frame) →
            Leads (after_lookup (L.linked links.now) ((L.linked links.now).call (holder_of frame.entry) op id.now)
            id.now frame.entry self.old.frames (record self.old { frames = before })) after self.new) }
        ensures most { OnOk result (objects_at_most self.new ≤ objects_at_most self.old + 1) }
        ensures spent { OnOk result (self.new.spent ≡ self.old.spent) }
    {
        let Some(call) = links.call(frame.holder(), op, id) else {
            return Ok(After::Ended(Outcome::Stuck(frame.offset())));
        };
        match signature_of(alloc, id.desc.items())? {
            Some(types) => self.call_by(alloc, links, call, op, id, &types, frame),
            None => Ok(After::Ended(Outcome::Stuck(frame.offset()))),
        }
    }
}
