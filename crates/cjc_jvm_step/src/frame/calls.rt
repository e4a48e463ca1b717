//! What calls, returns and exceptions ask of a frame: its instruction, its arguments, a frame that begins, one that
//! goes on behind its call or at a handler (Java Virtual Machine Specification, 2.6 and 2.10).

ghost use Rattle.std.specs.Prelude.{◌≡◌, ◌<◌, ◌≤◌, ◌-◌, ◌∷◌, [], ◌++◌, length, take, drop, reverse, map, replicate};
ghost use Rattle.std.specs.Prelude.{slice_get, option_map, Some, None, IfOk, OnOk};
ghost use Rattle.cjc_script.specs.declared.value.Value.TheVariants.{Obj};
ghost use Rattle.cjc_jvm_semantics.specs.Effects.{place};
ghost use Rattle.cjc_jvm_semantics.specs.Machine.{holder_of, offset, room, frame_for_call, behind_call, values_of};

use crate::frame::activation::Activation;
use crate::frame::method::Method;
use crate::frame::pile::Pile;
use cjc_jvm_semantics::bytecode::JInsn;
use cjc_script::Value;
use cjc_script::bytes::NoMemory;
use std::alloc::Global;
use std::marker::Model;

// The arguments, and then locals that are not set.
fn locals_of(alloc: Global, args: &[Value], max_locals: u16) -> Result<Vec<Option<Value>>, NoMemory>
    ensures { IfOk result (λ locals. locals.items ≡ map (λ v. Some v) args.now
        ++ replicate (max_locals - length args.now) None) }
{
    let mut locals = Vec::new(alloc);
    for arg in args {
        locals.push(Some(*arg))?;
    }
    let unset = (max_locals as usize).saturating_sub(args.len());
    for i in 0..unset {
        locals.push(None)?;
    }
    Ok(locals)
}

impl<'a> Activation<'a> {
    /// A method that begins with its arguments.
    pub fn enter(
        alloc: Global,
        method: &'a Method<'a>,
        args: &[Value],
    ) -> Result<Activation<'a>, NoMemory>
        ensures { IfOk result (λ f. f ≡ frame_for_call method.now args.now) }
    {
        method.count();
        let locals = locals_of(alloc, args, method.max_locals)?;
        Ok(Activation {
            method,
            at: 0,
            stack: Pile::new(alloc),
            locals,
        })
    }

    /// The class that holds the code.
    pub fn holder(&self) -> &'a [u8]
        ensures { result.now ≡ holder_of self.now }
    {
        let method = self.method;
        method.class
    }

    /// The method.
    pub fn method(&self) -> &'a Method<'a>
        ensures { result.now ≡ self.now.method }
    {
        self.method
    }

    /// The instruction that is next or under way.
    pub fn insn(&self) -> Option<&'a JInsn>
        ensures { option_map (λ i. i.now) result ≡ slice_get self.now.method.insns self.now.at }
    {
        let method = self.method;
        method.insns.get(self.at as usize)
    }

    /// The offset of the instruction that is next or under way, in bytes; 0 where there is none.
    pub fn offset(&self) -> u32
        ensures { result ≡ offset self.now }
    {
        match self.insn() {
            Some(insn) => insn.at,
            None => 0,
        }
    }

    /// The top operands, the top last: the arguments of a call.
    pub fn args(&self, count: usize) -> &[Value]
        requires { count ≤ length self.now.stack }
        ensures { result.now ≡ reverse (take count self.now.stack) }
    {
        self.stack.newest(count)
    }

    /// Takes operands off.
    pub fn forget(&mut self, count: usize)
        requires { count ≤ length self.old.stack }
        ensures { self.new ≡ record self.old { stack = drop count self.old.stack } }
    {
        self.stack.forget(count);
    }

    /// Goes on behind a call, with its result if there is one.
    pub fn resume(&mut self, value: Option<Value>) -> Result<(), NoMemory>
        requires { self.old.at < length self.old.method.insns }
        ensures { OnOk result (self.new ≡ behind_call (values_of value) self.old) }
    {
        match value {
            Some(value) => self.put(0, value)?,
            None => self.pass(0),
        }
        Ok(())
    }

    /// Goes on at the handler of an exception, whose number is then the only operand.
    pub fn catch(&mut self, target: u32, object: u32) -> Result<(), NoMemory>
        ensures { OnOk result (self.new ≡ record self.old {
          at = place self.old.method.insns target;
          stack = Obj object
              ∷ [];
        }) }
    {
        let height = self.stack.len();
        self.stack.forget(height);
        self.stack.push(Value::Obj(object))?;
        self.at = self.method.place(target);
        Ok(())
    }
}

/// A frame that has called: its place is inside its code.
#[derive(Drop)]
pub struct Caller<'a> {
    frame: Activation<'a>,
}

impl<'a> Model for Caller<'a> {
    ghost use Rattle.std.specs.Prelude.{length, ◌<◌};
    ghost use Rattle.cjc_jvm_semantics.specs.Machine.{Frame};

    ghost Value = { Frame };

    ghost view = { λ c. c.frame };

    ghost invariant = { λ c. c.frame.at < length c.frame.method.insns };
}

impl<'a> Caller<'a> {
    /// The frame, which calls.
    pub fn new(frame: Activation<'a>) -> Caller<'a>
        requires { frame.at < length frame.method.insns }
        ensures { result ≡ frame.entry }
    {
        Caller { frame }
    }

    /// The frame, which its call comes back to.
    pub fn into_frame(self) -> Activation<'a>
        ensures same { result ≡ self.entry }
        ensures inside { result.at < length result.method.insns }
    {
        self.frame
    }
}
