//! The narrow code of the methods of a package, by the instance fields that have an index of one byte in a pool. Called
//! first to know the pool, and again by its indices.

ghost use Rattle.std.specs.Prelude.{◌≡◌, ◌-◌, List, Option, Some, true, false, All, length, map, slice_get, IfOk};
ghost use Rattle.cjc_world.specs.ClassFile.Code.{CodeTree};
ghost use Rattle.cjc_world.specs.ClassFile.declared.tree.ClassTree.{ClassTree as ClassFile};
ghost use Rattle.cjc_world.specs.ClassFile.declared.tree.MethodTree.{MethodTree as ClassMethod};
ghost use Rattle.cjc_narrow.specs.Types.Flow.{body_of};
ghost use Rattle.cjc_narrow.specs.Types.Tables.{IsMethodOf, IsOfPackage};
ghost use Rattle.cjc_narrow.specs.Rows.Resolved.{resolution};
ghost use Rattle.cjc_narrow.specs.Rows.Selected.{near_fields, selected_code};
ghost use Rattle.cjc_narrow.specs.Written.Rows.{has_rows, rows_by};
ghost use Rattle.cjc_pool.specs.Subset.Ints.{code_works_on_int};
ghost use Rattle.cjc_components.specs.Written.{no_code};
ghost use Rattle.cjc_intervals.specs.Frames.{RangeState as Ranges};
ghost use Rattle.cjc_intervals.specs.Tables.{IsLeastRanges};
ghost use Rattle.cjc_int_mode.specs.Room.{IsRoom};
ghost use Rattle.cjc_int_mode.specs.Written.{written_in_int_mode};
ghost use Rattle.cjc_int_mode.specs.declared.modes.Mode.TheVariants as modes;
ghost use Rattle.cjc_int_narrow.specs.Constants.{constants_of};
ghost use Rattle.cjc_int_package.specs.Modes.{Tables};
ghost use Rattle.cjc_int_package.specs.Written.{code_by_mode_at};
ghost use Rattle.cjc_methods.specs.Ready.{AreFree, AreReady, AreTold, IsListed, IsOwn, IsReady, states};
ghost use Rattle.cjc_methods.specs.Words.{HasRoom};
ghost use Rattle.cjc_methods.specs.Working.ByMode.{selected_by};
ghost use Rattle.cjc_methods.specs.Working.Places.{class_places, place_in};

use crate::method::method_in;
use crate::places::place_in;
use crate::reached::reached;
use cjc_bytes::{NoMemory, Row};
use cjc_int_mode::modes::Mode;
use cjc_int_narrow::known_before;
use cjc_narrow::bytecode::MethodCode;
use cjc_narrow::keys::Numbers;
use cjc_narrow::ncode::NMethod;
use cjc_narrow::select::{argument_words, select};
use cjc_narrow::types::TypeTable;
use cjc_world::{Found, World};
use std::alloc::Global;

/// The narrow code of a method that is not in int mode, by its types.
fn selected_in_short_mode(
    alloc: Global,
    world: &World<'_>,
    code: &MethodCode,
    types: &TypeTable,
    pool: &Numbers,
) -> Result<NMethod, NoMemory>
    requires code { IsOfPackage world.now code.now }
    requires ready { (c : ClassFile) (m : ClassMethod) (t : CodeTree) → IsMethodOf world.now code.now c m t
        → IsReady world.now code.now c m t types.now }
    requires free { code_works_on_int world.now code.now ≡ false }
    ensures { (c : ClassFile) (m : ClassMethod) (t : CodeTree) → IsMethodOf world.now code.now c m t
        → IfOk result (λ n. n ≡ selected_code world.now (near_fields pool.now) c m t code.now.insns
        (rows_by (has_rows (states code.now c m t types.now)))) }
{
    let class = &world.classes().items()[code.class as usize];
    let method = &class.methods.items()[code.method as usize];
    match &method.code {
        Some(tree) => {
            let reaches = reached(alloc, world, code, types)?;
            let insns = code.insns.items();
            let marks = types.marks.items();
            select(
                alloc,
                world,
                class,
                method,
                tree,
                insns,
                reaches.items(),
                marks,
                pool,
            )
        }
        None => unreachable!(),
    }
}

/// The narrow code of a method in int mode, by what its least tables say before its instructions.
fn selected_in_int_mode(
    alloc: Global,
    world: &World<'_>,
    code: &MethodCode,
    types: &TypeTable,
    pool: &Numbers,
) -> Result<NMethod, NoMemory>
    requires code { IsOfPackage world.now code.now }
    requires ready { (c : ClassFile) (m : ClassMethod) (t : CodeTree) → IsMethodOf world.now code.now c m t
        → IsReady world.now code.now c m t types.now }
    requires room { (c : ClassFile) (m : ClassMethod) (t : CodeTree) → IsMethodOf world.now code.now c m t
        → IsRoom (body_of c m t code.now.insns) (states code.now c m t types.now) modes.Int true }
    ensures { (c : ClassFile) (m : ClassMethod) (t : CodeTree) → IsMethodOf world.now code.now c m t
        → (ranges : List (Option Ranges))
        → IsLeastRanges (body_of c m t code.now.insns) (constants_of world.now) (states code.now c m t types.now) ranges
        → IfOk result (λ n. n ≡ written_in_int_mode (resolution world.now (near_fields pool.now) c.name) t
        (body_of c m t code.now.insns) (states code.now c m t types.now) ranges) }
{
    let class = &world.classes().items()[code.class as usize];
    let method = &class.methods.items()[code.method as usize];
    match &method.code {
        Some(tree) => {
            let known = known_before(alloc, world, code, types)?;
            let insns = code.insns.items();
            cjc_int_narrow::select(
                alloc,
                world,
                class,
                method,
                tree,
                insns,
                known.items(),
                pool,
            )
        }
        None => unreachable!(),
    }
}

/// The narrow code of a method with code, by its mode and its types.
fn selected(
    alloc: Global,
    world: &World<'_>,
    code: &MethodCode,
    types: &TypeTable,
    mode: Mode,
    pool: &Numbers,
) -> Result<NMethod, NoMemory>
    requires code { IsOfPackage world.now code.now }
    requires ready { (c : ClassFile) (m : ClassMethod) (t : CodeTree) → IsMethodOf world.now code.now c m t
        → IsReady world.now code.now c m t types.now }
    requires free { mode ≡ modes.Short → code_works_on_int world.now code.now ≡ false }
    requires room { mode ≡ modes.Int → (c : ClassFile) (m : ClassMethod) (t : CodeTree)
        → IsMethodOf world.now code.now c m t
        → IsRoom (body_of c m t code.now.insns) (states code.now c m t types.now) modes.Int true }
    ensures { (c : ClassFile) (m : ClassMethod) (t : CodeTree) → IsMethodOf world.now code.now c m t
        → (ranges : List (Option Ranges))
        → IsLeastRanges (body_of c m t code.now.insns) (constants_of world.now) (states code.now c m t types.now) ranges
        → IfOk result (λ n. n ≡ selected_by mode world.now (near_fields pool.now) code.now c m t
        (states code.now c m t types.now) ranges) }
{
    match mode {
        Mode::Short => selected_in_short_mode(alloc, world, code, types, pool),
        Mode::Int => selected_in_int_mode(alloc, world, code, types, pool),
    }
}

/// The code of a method that has none and takes so many words.
fn no_code(alloc: Global, nargs: u8) -> NMethod
    ensures { result ≡ no_code nargs }
{
    NMethod {
        insns: Row::new(alloc),
        from: Row::new(alloc),
        catches: Row::new(alloc),
        max_stack: 0,
        nargs,
        max_locals: 0,
        widest: 0,
    }
}

/// What code is selected by: the instructions, the types and the mode of each method with code, and where each method's
/// are.
#[derive(Clone, Copy)]
pub(crate) struct Sources<'a> {
    pub codes: &'a [MethodCode],
    pub types: &'a [TypeTable],
    pub modes: &'a [Mode],
    pub places: &'a [Row<Option<u32>>],
}

/// The place of a member's code among these; none where it has none.
pub(crate) fn place_of(world: &World<'_>, sources: Sources<'_>, member: Found) -> Option<u32>
    requires { IsOwn world.now member }
    ensures { (c : ClassFile) → slice_get world.now.classes member.class ≡ Some c
        → result ≡ place_in sources.entry.places.now member.class (member.member - length c.fields) }
{
    let class = &world.classes().items()[member.class as usize];
    let method = (member.member as usize).saturating_sub(class.fields.items().len());
    place_in(sources.places, member.class, method)
}

/// The narrow code of a member of a class of the package, without instructions where it has none.
pub(crate) fn code_at(
    alloc: Global,
    world: &World<'_>,
    sources: Sources<'_>,
    pool: &Numbers,
    member: Found,
) -> Result<NMethod, NoMemory>
    requires ready { AreReady world.now sources.codes.now sources.types.now }
    requires count { length sources.modes.now ≡ length sources.codes.now }
    requires free { AreFree world.now sources.codes.now sources.modes.now }
    requires places { sources.places.now ≡ class_places 0 world.now.classes }
    requires listed { IsListed world.now member }
    requires room { HasRoom world.now sources.codes.now sources.types.now sources.modes.now member }
    ensures { (t : Tables) → AreTold world.now sources.entry.codes.now sources.entry.types.now sources.entry.modes.now t
        → IfOk result (λ n. n ≡ code_by_mode_at world.now (near_fields pool.now) t member) }
{
    match place_of(world, sources, member) {
        Some(place) => {
            let place = place as usize;
            selected(
                alloc,
                world,
                &sources.codes[place],
                &sources.types[place],
                sources.modes[place],
                pool,
            )
        }
        None => {
            let method = method_in(world, member);
            let words = argument_words(method.flags, method.desc)?;
            Ok(no_code(alloc, words as u8))
        }
    }
}

/// The narrow code of all members.
pub(crate) fn codes_at(
    alloc: Global,
    world: &World<'_>,
    sources: Sources<'_>,
    pool: &Numbers,
    members: &[Found],
) -> Result<Row<NMethod>, NoMemory>
    requires ready { AreReady world.now sources.codes.now sources.types.now }
    requires count { length sources.modes.now ≡ length sources.codes.now }
    requires free { AreFree world.now sources.codes.now sources.modes.now }
    requires places { sources.places.now ≡ class_places 0 world.now.classes }
    requires listed { All (IsListed world.now) members.now }
    requires room { All (HasRoom world.now sources.codes.now sources.types.now sources.modes.now) members.now }
    ensures { (t : Tables) → AreTold world.now sources.entry.codes.now sources.entry.types.now sources.entry.modes.now t
        → IfOk result (λ ns. ns ≡ map (code_by_mode_at world.now (near_fields pool.now) t) members.now) }
{
    let mut out = Row::new(alloc);
    for member in members {
        out.push(code_at(alloc, world, sources, pool, *member)?)?;
    }
    Ok(out)
}
