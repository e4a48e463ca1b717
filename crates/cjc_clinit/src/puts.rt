//! What initialisers put into the fields of their classes, instruction by instruction.

ghost use Rattle.std.specs.Prelude.{◌≡◌, ◌++◌, [], map, slice_get, slice_set, option_map, true, IfNone, IfOk, IfSome};
ghost use Rattle.std.specs.Prelude.{OnOk};
ghost use Rattle.cjc_clinit.specs.declared.stage.Stage.TheVariants as stages;
ghost use Rattle.cjc_clinit.specs.Image.{initialised, own_field};
ghost use Rattle.cjc_clinit.specs.Initialiser.{is_initialiser, is_open, nothing_in, open_in, open_place, own_place};
ghost use Rattle.cjc_clinit.specs.Working.Reading.{IsRead, after_code, after_initialiser, after_static, array_from};
ghost use Rattle.cjc_clinit.specs.Working.Reading.{contents_of, ended, is_ended, puts, puts_as, read, state};
ghost use Rattle.cjc_clinit.specs.Working.Reading.{state_after};

use crate::fields::is_cell;
use crate::stage::{Held, Stage};
use crate::stages::{held_by, stage_after, takes};
use cjc_bytes::{Bytes, MemberId, NoMemory, Row};
use cjc_subset::bytecode::{JInsn, JOp, MethodCode};
use cjc_subset::classfile::{ClassTree, FieldTree, MethodTree};
use cjc_subset::world::{ArrayCell, Found, World};
use std::alloc::Global;

// ---- one put

/// The place of a field that was found, where the class of a number declares it.
fn own_place(number: u32, found: Option<Found>) -> Option<u32>
    ensures { result ≡ own_place number found }
{
    match found {
        None => None,
        Some(found) => {
            if !found.imported && found.class == number {
                Some(found.member)
            } else {
                None
            }
        }
    }
}

/// Whether a field has a cell and nothing was put into it.
fn is_open(field: Option<&FieldTree>, put: Option<&Held>) -> bool
    ensures { result ≡ is_open (option_map (λ f. f.now) field.entry) (option_map (λ h. h.now) put.entry) }
{
    match (field, put) {
        (Some(field), Some(Held::Nothing)) => is_cell(field),
        _ => false,
    }
}

/// The place, where the field there is open.
fn open_in(class: &ClassTree<'_>, fields: &[Held], place: u32) -> Option<u32>
    ensures { result ≡ open_in class.now fields.now place }
{
    let field = class.fields.items().get(place as usize);
    if is_open(field, fields.get(place as usize)) {
        Some(place)
    } else {
        None
    }
}

/// The place of the field that an instruction of a class names: one of its own that has a cell, into which
/// nothing was put.
#[tactic(auto, unfolding(crate::specs::Initialiser::open_place))]
fn open_place(
    world: &World<'_>,
    number: u32,
    class: &ClassTree<'_>,
    fields: &[Held],
    id: &MemberId,
) -> Option<u32>
    ensures { result ≡ open_place world.now number class.now fields.now id.now }
{
    match own_place(number, world.find_field(id)) {
        None => None,
        Some(place) => open_in(class, fields, place),
    }
}

/// The array that is put, where it is one, with its field.
fn put_array(
    alloc: Global,
    arrays: &mut Row<ArrayCell>,
    class: &ClassTree<'_>,
    id: &MemberId,
    stage: Stage,
) -> Result<(), NoMemory>
    ensures { OnOk result (arrays.new ≡ arrays.old ++ array_from (own_field class.now id.now) (contents_of stage)) }
{
    match stage {
        Stage::Array(kind, items) => {
            let field = own_field(alloc, class, id)?;
            arrays.push(ArrayCell { field, kind, items })?;
            Ok(())
        }
        _ => Ok(()),
    }
}

/// The field of an instruction, by the class that declares it.
fn own_field(alloc: Global, class: &ClassTree<'_>, id: &MemberId) -> Result<MemberId, NoMemory>
    ensures { IfOk result (λ field. field ≡ own_field class.now id.now) }
{
    Ok(MemberId {
        class: Bytes::copy_of(alloc, class.name.items())?,
        name: Bytes::copy_of(alloc, id.name.items())?,
        desc: Bytes::copy_of(alloc, id.desc.items())?,
    })
}

/// Puts what is on the stack into a field, where it is all that is put and the field is open and takes it.
fn after_put(
    alloc: Global,
    world: &World<'_>,
    number: u32,
    class: &ClassTree<'_>,
    fields: &mut [Held],
    arrays: &mut Row<ArrayCell>,
    stage: Stage,
    id: &MemberId,
) -> Result<Option<Stage>, NoMemory>
    ensures { IfOk result (λ s. after_static world.now number class.now true id.now (state fields.old arrays.old stage)
        ≡ option_map (state fields.new arrays.new) s) }
{
    if !takes(&stage, id.desc.items()) {
        return Ok(None);
    }
    match open_place(world, number, class, fields, id) {
        None => Ok(None),
        Some(place) => {
            if (place as usize) < fields.len() {
                fields[place as usize] = held_by(&stage);
            }
            put_array(alloc, arrays, class, id, stage)?;
            Ok(Some(Stage::Free))
        }
    }
}

// ---- an initialiser

/// The state behind an instruction; None where no initialiser of the class begins so.
#[tactic(auto, unfolding(crate::specs::Working::Reading::state_after))]
fn state_after(
    alloc: Global,
    world: &World<'_>,
    number: u32,
    class: &ClassTree<'_>,
    fields: &mut [Held],
    arrays: &mut Row<ArrayCell>,
    stage: Stage,
    op: &JOp,
) -> Result<Option<Stage>, NoMemory>
    ensures { IfOk result (λ s. state_after world.now number class.now (state fields.old arrays.old stage) op.now
        ≡ option_map (state fields.new arrays.new) s) }
{
    match op {
        JOp::Static { put, field } => {
            if *put {
                after_put(alloc, world, number, class, fields, arrays, stage, field)
            } else {
                Ok(None)
            }
        }
        _ => stage_after(alloc, stage, op),
    }
}

fn is_ended(stage: &Stage) -> bool
    ensures { result ≡ is_ended stage.now }
{
    match stage {
        Stage::Ended => true,
        _ => false,
    }
}

/// Reads an initialiser of a class. The offset of the first instruction with which it is none, or of its code
/// where its return is missing.
fn read(
    alloc: Global,
    world: &World<'_>,
    number: u32,
    class: &ClassTree<'_>,
    fields: &mut [Held],
    arrays: &mut Row<ArrayCell>,
    insns: &[JInsn],
) -> Result<Option<u32>, NoMemory>
    ensures { IfOk result
        (λ at. IsRead (ended (read world.now number class.now (state fields.old arrays.old stages.Free) insns.now)) at
        fields.new arrays.new) }
{
    let mut stage = Stage::Free;
    for insn in insns {
        match state_after(alloc, world, number, class, fields, arrays, stage, &insn.op)? {
            None => return Ok(Some(insn.at)),
            Some(next) => stage = next,
        }
    }
    if is_ended(&stage) {
        Ok(None)
    } else {
        Ok(Some(0))
    }
}

// ---- the initialisers of a package

/// Whether a method is the initialiser of its class: `<clinit>()V`.
pub(crate) fn is_initialiser(method: &MethodTree<'_>) -> bool
    ensures { result ≡ is_initialiser method.now }
{
    method.name.items() == b"<clinit>".as_slice() && method.desc.items() == b"()V".as_slice()
}

fn nothing_in(alloc: Global, class: &ClassTree<'_>) -> Result<Row<Held>, NoMemory>
    ensures { IfOk result (λ fields. fields ≡ nothing_in class.now) }
{
    let fields = vec![in alloc; Held::Nothing; class.fields.items().len()]?;
    Ok(Row::of(fields))
}

/// What the fields of each class hold before any initialiser: nothing is put.
#[tactic(auto, using(crate::proofs::Walks::nothing_next, crate::proofs::Walks::nothing_end))]
pub(crate) fn no_puts(alloc: Global, classes: &[ClassTree<'_>]) -> Result<Vec<Row<Held>>, NoMemory>
    ensures { IfOk result (λ rows. rows.items ≡ map nothing_in classes.now) }
{
    let mut rows = Vec::new(alloc);
    for class in classes {
        let fields = nothing_in(alloc, class)?;
        rows.push(fields)?;
    }
    Ok(rows)
}

fn put_fields(rows: &mut [Row<Held>], number: usize, fields: Row<Held>)
    ensures { rows.new ≡ slice_set rows.old number fields }
{
    if number < rows.len() {
        rows[number] = fields;
    }
}

/// Reads the initialiser of a class. The offset with which it is none; else what is put is as after it.
#[tactic(auto, unfolding(crate::specs::Working::Reading::after_initialiser))]
fn after_initialiser(
    alloc: Global,
    world: &World<'_>,
    class: &ClassTree<'_>,
    code: &MethodCode,
    rows: &mut [Row<Held>],
    arrays: &mut Row<ArrayCell>,
) -> Result<Option<u32>, NoMemory>
    ensures { IfOk result (λ at. after_initialiser world.now class.now code.now (puts rows.old arrays.old)
        ≡ puts_as at (puts rows.new arrays.new)) }
{
    let held = nothing_in(alloc, class)?;
    let mut fields = held.into_vec();
    let insns = code.insns.items();
    match read(alloc, world, code.class, class, &mut fields, arrays, insns)? {
        None => {
            put_fields(rows, code.class as usize, Row::of(fields));
            Ok(None)
        }
        Some(offset) => Ok(Some(offset)),
    }
}

/// The class whose initialiser has this code; None where it is that of another method.
fn initialised<'w, 'a>(world: &'w World<'a>, code: &MethodCode) -> Option<&'w ClassTree<'a>>
    ensures { option_map (λ c. c.now) result ≡ initialised world.now code.now }
{
    let class = world.classes().items().get(code.class as usize)?;
    let method = class.methods.items().get(code.method as usize)?;
    if is_initialiser(method) {
        Some(class)
    } else {
        None
    }
}

/// The same for the code of any method, which is passed over where it is no initialiser.
#[tactic(auto, unfolding(crate::specs::Working::Reading::after_code))]
pub(crate) fn after_code(
    alloc: Global,
    world: &World<'_>,
    code: &MethodCode,
    rows: &mut [Row<Held>],
    arrays: &mut Row<ArrayCell>,
) -> Result<Option<u32>, NoMemory>
    ensures { IfOk result (λ at. after_code world.now (puts rows.old arrays.old) code.now
        ≡ puts_as at (puts rows.new arrays.new)) }
{
    match initialised(world, code) {
        None => Ok(None),
        Some(class) => after_initialiser(alloc, world, class, code, rows, arrays),
    }
}
