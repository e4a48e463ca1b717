//! Whether what is written for a method has room: rule 417.

ghost use Rattle.std.specs.Prelude.{◌≡◌, ◌≤◌, List, max, option_map, IfOk};
ghost use Rattle.std.specs.List.{list_any};
ghost use Rattle.cjc_flow.specs.ClassFile.Code.{CodeTree};
ghost use Rattle.cjc_flow.specs.ClassFile.declared.tree.ClassTree.{ClassTree as ClassFile};
ghost use Rattle.cjc_flow.specs.ClassFile.declared.tree.MethodTree.{MethodTree as ClassMethod};
ghost use Rattle.cjc_flow.specs.World.Classes.{Class, all_classes};
ghost use Rattle.cjc_flow.specs.LowerTypes.Flow.{body_of};
ghost use Rattle.cjc_flow.specs.LowerTypes.Steps.{operand};
ghost use Rattle.cjc_flow.specs.LowerTypes.Tables.{IsMethodOf, IsOfPackage, IsTypeTable, rows_of, state_of};
ghost use Rattle.cjc_int_mode.specs.declared.modes.Mode.TheVariants as modes;
ghost use Rattle.cjc_int_mode.specs.Room.{IsRoom};
ghost use Rattle.cjc_int_mode.specs.Written.{argument_words};
ghost use Rattle.cjc_int_mode.specs.Working.Pairs.{is_unusable, pairs_at, pairs_from};

use crate::descriptors::{argument_words, scratch_pairs_of};
use crate::modes::Mode;
use cjc_flow::types::{Cell, Frame, Method, Operands, TypeTable, TypeWalk};
use cjc_subset::bytecode::{JOp, MethodCode};
use cjc_subset::bytes::NoMemory;
use cjc_subset::world::World;
use std::alloc::Global;

fn is_unusable(cell: &Cell) -> bool
    ensures { result ≡ is_unusable cell.now }
{
    match cell {
        Cell::Unusable => true,
        _ => false,
    }
}

/// Whether the k-th cell from the top is unusable, as one that is missing is.
fn is_unusable_at(stack: &Operands, k: usize) -> bool
    ensures { result ≡ is_unusable (operand stack.now k) }
{
    match stack.get(k) {
        Some(cell) => is_unusable(cell),
        None => true,
    }
}

/// Whether a cell of a stack is unusable.
fn has_unusable(stack: &Operands) -> bool
    ensures { result ≡ list_any is_unusable stack.now }
{
    for k in 0..stack.len() {
        if is_unusable_at(stack, k) {
            return true;
        }
    }
    false
}

/// The greater of two numbers.
fn greater(left: u32, right: u32) -> u32
    ensures { result ≡ max left right }
{
    if left <= right { right } else { left }
}

/// These scratch pairs, or those of an instruction where the types reach it and it has more; nothing where a cell of
/// the stack before it is unusable.
fn pairs_at(frame: &Option<Frame>, op: &JOp, pairs: u32) -> Result<Option<u32>, NoMemory>
    ensures { IfOk result (λ found. found ≡ pairs_at pairs op.now (option_map state_of frame.now)) }
{
    match frame {
        None => Ok(Some(pairs)),
        Some(frame) => {
            if has_unusable(&frame.stack) {
                Ok(None)
            } else {
                Ok(Some(greater(pairs, scratch_pairs_of(op)?)))
            }
        }
    }
}

/// The greatest number of scratch pairs of the instructions that the types reach; nothing where a cell of a stack
/// before one is unusable.
fn pairs_where_usable(
    alloc: Global,
    method: &Method<'_>,
    types: &TypeTable,
) -> Result<Option<u32>, NoMemory>
    requires types { (w : List Class) × IsTypeTable w method.now types.now }
    ensures { IfOk result (λ pairs. pairs ≡ pairs_from 0 method.now.insns (rows_of method.now types.now)) }
{
    let mut walk = TypeWalk::new(method, types);
    let insns = method.insns();
    let mut pairs = 0;
    for place in 0..insns.len() {
        match pairs_at(walk.frame(), &insns[place].op, pairs)? {
            Some(more) => {
                pairs = more;
                walk.advance(alloc)?;
            }
            None => return Ok(None),
        }
    }
    Ok(Some(pairs))
}

/// Whether a method in int mode has room whose arguments are so many words, 255 at most.
fn has_int_room(
    alloc: Global,
    method: &Method<'_>,
    max_stack: u16,
    words: u64,
    types: &TypeTable,
) -> Result<bool, NoMemory>
    requires types { (w : List Class) × IsTypeTable w method.now types.now }
    requires stack { max_stack ≡ method.now.max_stack }
    requires words { words ≡ argument_words method.now }
    requires few { words ≤ 255 }
    ensures { IfOk result (IsRoom method.now (rows_of method.now types.now) modes.Int) }
{
    if 2 * u32::from(max_stack) + 4 > 255 {
        return Ok(false);
    }
    match pairs_where_usable(alloc, method, types)? {
        Some(pairs) => {
            let locals = 2 * u64::from(method.max_locals()) + 2 * u64::from(pairs);
            Ok(words + locals <= 255)
        }
        None => Ok(false),
    }
}

/// Whether a method has room.
fn has_room(
    alloc: Global,
    method: &Method<'_>,
    max_stack: u16,
    types: &TypeTable,
    mode: Mode,
) -> Result<bool, NoMemory>
    requires types { (w : List Class) × IsTypeTable w method.now types.now }
    requires stack { max_stack ≡ method.now.max_stack }
    ensures { IfOk result (IsRoom method.now (rows_of method.now types.now) mode) }
{
    let words = argument_words(method.flags(), method.desc())?;
    if words > 255 {
        return Ok(false);
    }
    match mode {
        Mode::Short => Ok(true),
        Mode::Int => has_int_room(alloc, method, max_stack, words, types),
    }
}

/// The operand stack that a method asks for, in words of the class file.
fn max_stack(world: &World<'_>, code: &MethodCode) -> u16
    requires { IsOfPackage world.now code.now }
    ensures { (c : ClassFile) (m : ClassMethod) (t : CodeTree) → IsMethodOf world.now code.now c m t
        → result ≡ t.max_stack }
{
    let class = &world.classes().items()[code.class as usize];
    let method = &class.methods.items()[code.method as usize];
    match &method.code {
        Some(tree) => tree.max_stack,
        None => unreachable!(),
    }
}

/// Whether what is written for a method with code has room: rule 417 is broken exactly where it has none. The arguments
/// with the receiver have room in 255 words; so do, in int mode, arguments and locals together and the operand stack,
/// and there no cell of a stack of the least type table is unusable.
///
/// The code is that of a method of the world, and its instructions are those that `decode` gives for it; the types are
/// those that `infer` gave for it.
pub fn room(
    alloc: Global,
    world: &World<'_>,
    code: &MethodCode,
    types: &TypeTable,
    mode: Mode,
) -> Result<bool, NoMemory>
    requires code { IsOfPackage world.now code.now }
    requires types { (c : ClassFile) (m : ClassMethod) (t : CodeTree) → IsMethodOf world.now code.now c m t
        → IsTypeTable (all_classes world.now) (body_of c m t code.now.insns) types.now }
    ensures { (c : ClassFile) (m : ClassMethod) (t : CodeTree) → IsMethodOf world.now code.now c m t
        → IfOk result (IsRoom (body_of c m t code.now.insns) (rows_of (body_of c m t code.now.insns) types.now) mode) }
{
    let method = Method::new(world, code);
    has_room(alloc, &method, max_stack(world, code), types, mode)
}
