//! Rules 301, 302, 304 to 307, 309, 310 and 401 to 409 over a package, in the order of refusals.

ghost use Rattle.std.specs.Prelude.{◌≡◌, ◌&&◌, ◌||◌, ◌<◌, ℕ, [], length, map, not, option_map, is_some, nat_lt, IfErr};
ghost use Rattle.std.specs.Prelude.{IfOk, IsTrue, OnOk};
ghost use Rattle.cjc_code.specs.ClassFile.declared.tree.MethodTree.{MethodTree as Method};
ghost use Rattle.cjc_code.specs.ClassFile.declared.tree.ClassTree.{ClassTree as Tree};
ghost use Rattle.cjc_bytes.specs.AccessFlags.{is_interface};
ghost use Rattle.cjc_bytes.specs.Breaks.{IsFirstRefusal, IsFirstOf, each};
ghost use Rattle.cjc_bytes.specs.Told.{break_of, spot_of};
ghost use Rattle.cjc_subset.specs.Checks.{check_breaks, class_breaks, code_breaks, field_breaks, has_unsupported};
ghost use Rattle.cjc_subset.specs.Checks.{has_int, insn_breaks, is_imported_variable, list_breaks, method_breaks};
ghost use Rattle.cjc_subset.specs.Checks.{names_variable, own_breaks};
ghost use Rattle.cjc_subset.specs.Working.Kinds.{kinds_of};
ghost use Rattle.cjc_subset.specs.Places.{at_class, at_method};
ghost use Rattle.cjc_bytes.specs.Order.{FilePlace, file_of};
ghost use Rattle.cjc_subset.specs.Flags.{is_unfit_method};
ghost use Rattle.cjc_subset.specs.Types.{is_int_desc, names_int, names_unsupported};

use crate::applets::has_unfit_applets;
use crate::exports::exports_break;
use crate::flags::{is_unfit_class, is_unfit_field, is_unfit_method};
use crate::interfaces::has_many_interfaces;
use crate::kinds::{Kinds, all_kinds};
use crate::limits::{
    has_deep_stack, has_many_cells, has_many_exported, has_many_handlers, has_many_locals,
};
use crate::members::is_constant;
use crate::overriding::{gets_hidden, overriding_break};
use crate::places::{class_spot, field_spot, method_spot};
use crate::types::{is_int_desc, is_unsupported_desc, names_int, names_unsupported};
use cjc_bytes::{
    Break, Fault, MemberId, NoMemory, RulePlace, Settings, answer, broken, file_of, first,
    is_interface,
};
use cjc_code::classfile::{ClassTree, FieldTree, MethodTree};
use cjc_code::{Codes, JInsn, JOp, MethodCode};
use cjc_world::{Found, World};
use std::alloc::Global;

// ---- instructions

fn is_imported_variable(world: &World<'_>, found: Option<Found>) -> bool
    ensures { result ≡ is_imported_variable world.now found }
{
    match found {
        Some(found) => found.imported && !is_constant(world, found),
        None => false,
    }
}

/// Whether an instruction names a field of an imported class that is no constant.
#[tactic(auto, unfolding(crate::specs::Checks::names_variable))]
fn names_variable(world: &World<'_>, op: &JOp) -> bool
    ensures { result ≡ names_variable world.now op.now }
{
    match op {
        JOp::Static { field, .. } => is_imported_variable(world, world.find_field(field)),
        JOp::Field { field, .. } => is_imported_variable(world, world.find_field(field)),
        _ => false,
    }
}

fn needs_ints(settings: &Settings, op: &JOp) -> bool
    ensures { result ≡ (not settings.now.ints && names_int op.now) }
{
    !settings.ints && names_int(op)
}

/// The first rule that is broken at an instruction, whose place this is.
fn insn_break<'w>(
    world: &World<'_>,
    settings: &Settings,
    insn: &JInsn,
    spot: RulePlace<'w>,
) -> Option<Break<'w>>
    ensures { (f : FilePlace) (c : Tree) (i : ℕ) (m : Method) → spot_of spot.entry ≡ at_method f c i m insn.now.at
        → IsFirstOf (insn_breaks world.now settings.now f c i m insn.now) (option_map break_of result) }
{
    let unsupported = broken(names_unsupported(&insn.op), spot, 301);
    let int = broken(needs_ints(settings, &insn.op), spot, 302);
    let variable = broken(names_variable(world, &insn.op), spot, 310);
    first(first(unsupported, int), variable)
}

/// The first rule that is broken at these instructions of a method.
fn insns_break<'w>(
    world: &World<'_>,
    settings: &Settings,
    class: &'w ClassTree<'_>,
    place: usize,
    method: &'w MethodTree<'_>,
    insns: &[JInsn],
    spot: RulePlace<'w>,
) -> Option<Break<'w>>
    requires { place < length class.now.methods }
    ensures { (f : FilePlace) → spot_of spot.entry ≡ at_class f class.now
        → IsFirstOf (each (λ _ insn. insn_breaks world.now settings.now f class.now place method.now insn) insns.now)
        (option_map break_of result) }
{
    let mut least = None;
    for insn in insns {
        let spot = method_spot(spot, class, place, method, insn.at);
        least = first(least, insn_break(world, settings, insn, spot));
    }
    least
}

/// Whether one of 301, 302 and 310 is broken at an instruction.
fn breaks_any(world: &World<'_>, settings: &Settings, op: &JOp) -> bool
    ensures { result ≡ (names_unsupported op.now || ((not settings.now.ints && names_int op.now)
        || names_variable world.now op.now)) }
{
    names_unsupported(op) || (needs_ints(settings, op) || names_variable(world, op))
}

/// Whether none of them is broken at these instructions, wherever they stand.
fn are_clean(world: &World<'_>, settings: &Settings, insns: &[JInsn]) -> bool
    ensures { IsTrue result → (f : FilePlace) (c : Tree) (place : ℕ) (m : Method)
        → each (λ _ insn. insn_breaks world.now settings.now f c place m insn) insns.now ≡ [] }
{
    for insn in insns {
        if breaks_any(world, settings, &insn.op) {
            return false;
        }
    }
    true
}

/// The first rule that is broken in the method of a code. The file of a class is asked for only where one is broken.
#[tactic(auto, unfolding(crate::specs::Checks::code_breaks))]
fn code_break<'w>(world: &'w World<'_>, settings: &Settings, code: &MethodCode) -> Option<Break<'w>>
    ensures { IsFirstOf (code_breaks world.now settings.now code.now) (option_map break_of result) }
{
    let class = world.classes().items().get(code.class as usize)?;
    let place = code.method as usize;
    let method = class.methods.items().get(place)?;
    if are_clean(world, settings, code.insns.items()) {
        return None;
    }
    let file = file_of(world.lines().items(), code.class as usize);
    let spot = class_spot(file, class);
    insns_break(
        world,
        settings,
        class,
        place,
        method,
        code.insns.items(),
        spot,
    )
}

/// The first rule that is broken in these methods.
fn codes_break<'w>(
    world: &'w World<'_>,
    settings: &Settings,
    codes: &[MethodCode],
) -> Option<Break<'w>>
    ensures { IsFirstOf (each (λ _ code. code_breaks world.now settings.now code) codes.now)
        (option_map break_of result) }
{
    let mut least = None;
    for code in codes {
        least = first(least, code_break(world, settings, code));
    }
    least
}

// ---- classes and their members

fn has_unsettled_int(settings: &Settings, desc: &[u8]) -> bool
    ensures { result ≡ (not settings.now.ints && is_int_desc desc.now) }
{
    !settings.ints && is_int_desc(desc)
}

/// The first rule that the field at a place of a class breaks.
fn field_break<'w>(
    settings: &Settings,
    class: &'w ClassTree<'_>,
    place: usize,
    field: &'w FieldTree,
    spot: RulePlace<'w>,
) -> Option<Break<'w>>
    ensures { (f : FilePlace) → spot_of spot.entry ≡ at_class f class.now
        → IsFirstOf (field_breaks settings.now f class.now place field.now) (option_map break_of result) }
{
    let spot = field_spot(spot, place, field);
    let desc = field.desc.items();
    let unsupported = broken(is_unsupported_desc(desc), spot, 301);
    let int = broken(has_unsettled_int(settings, desc), spot, 302);
    let unfit = is_unfit_field(is_interface(class.flags), field.flags);
    first(first(unsupported, int), broken(unfit, spot, 304))
}

/// The first rule that the fields of a class break.
fn fields_break<'w>(
    settings: &Settings,
    class: &'w ClassTree<'_>,
    spot: RulePlace<'w>,
) -> Option<Break<'w>>
    ensures { (f : FilePlace) → spot_of spot.entry ≡ at_class f class.now
        → IsFirstOf (each (λ i m. field_breaks settings.now f class.now i m) class.now.fields)
        (option_map break_of result) }
{
    let mut least = None;
    let fields = class.fields.items();
    for (place, field) in fields.iter().enumerate() {
        least = first(least, field_break(settings, class, place, field, spot));
    }
    least
}

/// Whether a method of a class has flags that it may not have.
fn has_unfit_flags(class: &ClassTree<'_>, method: &MethodTree<'_>) -> bool
    ensures { result ≡ is_unfit_method (is_interface class.now.flags) method.now.flags method.now.name
        (is_some method.now.code) }
{
    let interface = is_interface(class.flags);
    is_unfit_method(
        interface,
        method.flags,
        method.name.items(),
        method.code.is_some(),
    )
}

/// The first rule that the method at a place of a class breaks.
fn method_break<'w>(
    settings: &Settings,
    class: &'w ClassTree<'_>,
    place: usize,
    method: &'w MethodTree<'_>,
    spot: RulePlace<'w>,
) -> Option<Break<'w>>
    requires { place < length class.now.methods }
    ensures { (f : FilePlace) → spot_of spot.entry ≡ at_class f class.now
        → IsFirstOf (method_breaks settings.now f class.now place method.now) (option_map break_of result) }
{
    let spot = method_spot(spot, class, place, method, 0);
    let desc = method.desc.items();
    let unsupported = broken(is_unsupported_desc(desc), spot, 301);
    let int = broken(has_unsettled_int(settings, desc), spot, 302);
    let unfit = broken(has_unfit_flags(class, method), spot, 304);
    let locals = broken(has_many_locals(method), spot, 404);
    let stack = broken(has_deep_stack(method), spot, 405);
    first(first(first(first(unsupported, int), unfit), locals), stack)
}

/// The first rule that the methods of a class break.
fn methods_break<'w>(
    settings: &Settings,
    class: &'w ClassTree<'_>,
    spot: RulePlace<'w>,
) -> Option<Break<'w>>
    ensures { (f : FilePlace) → spot_of spot.entry ≡ at_class f class.now
        → IsFirstOf (each (λ i m. method_breaks settings.now f class.now i m) class.now.methods)
        (option_map break_of result) }
{
    let mut least = None;
    let methods = class.methods.items();
    for (place, method) in methods.iter().enumerate() {
        least = first(least, method_break(settings, class, place, method, spot));
    }
    least
}

// ---- the package

fn has_unsupported(added: &[MemberId]) -> bool
    ensures { result ≡ has_unsupported added.now }
{
    added
        .iter()
        .any(|method| is_unsupported_desc(method.desc.items()))
}

fn has_int(added: &[MemberId]) -> bool
    ensures { result ≡ has_int added.now }
{
    added.iter().any(|method| is_int_desc(method.desc.items()))
}

fn adds_int(settings: &Settings, added: &[MemberId]) -> bool
    ensures { result ≡ (not settings.now.ints && has_int added.now) }
{
    !settings.ints && has_int(added)
}

/// The first rule that a class of the package breaks itself, by what it has and what it gets.
fn own_break<'w>(
    alloc: Global,
    world: &World<'_>,
    settings: &Settings,
    number: u32,
    class: &'w ClassTree<'_>,
    spot: RulePlace<'w>,
) -> Result<Option<Break<'w>>, NoMemory>
    requires { number < length world.now.classes }
    ensures { (f : FilePlace) → spot_of spot.entry ≡ at_class f class.now
        → IfOk result (λ b. IsFirstOf (own_breaks world.now settings.now f number class.now) (option_map break_of b)) }
{
    let added = world.added(number).items();
    let unsupported = broken(has_unsupported(added), spot, 301);
    let int = broken(adds_int(settings, added), spot, 302);
    let unfit = broken(is_unfit_class(class.flags), spot, 304);
    let hidden = broken(gets_hidden(world, class, added), spot, 305);
    let interfaces = broken(has_many_interfaces(alloc, world, class)?, spot, 403);
    let cells = broken(has_many_cells(class), spot, 406);
    let types = first(unsupported, int);
    let methods = first(first(types, unfit), hidden);
    Ok(first(first(methods, interfaces), cells))
}

/// The first rule that the class of this number or its members break, whose place this is. The kinds are those
/// of all classes.
fn class_break<'w>(
    alloc: Global,
    world: &World<'_>,
    settings: &Settings,
    kinds: &[Kinds],
    number: u32,
    class: &'w ClassTree<'_>,
    spot: RulePlace<'w>,
) -> Result<Option<Break<'w>>, NoMemory>
    requires number { number < length world.now.classes }
    requires kinds { kinds.now ≡ map kinds_of world.now.classes }
    ensures { (f : FilePlace) → spot_of spot.entry ≡ at_class f class.now
        → IfOk result (λ b. IsFirstOf (class_breaks world.now settings.now f number class.now)
        (option_map break_of b)) }
{
    let own = own_break(alloc, world, settings, number, class, spot)?;
    let fields = fields_break(settings, class, spot);
    let methods = methods_break(settings, class, spot);
    let overriding = overriding_break(alloc, world, kinds, class, spot)?;
    Ok(first(first(first(own, fields), methods), overriding))
}

/// The first rule that the classes of the package break. More than 32 bits count have no memory.
fn classes_break<'w>(
    alloc: Global,
    world: &'w World<'_>,
    settings: &Settings,
) -> Result<Option<Break<'w>>, NoMemory>
    ensures { IfOk result (λ b. IsFirstOf (each (λ n c. class_breaks world.now settings.now (file_of world.now.lines n)
        n c) world.now.classes) (option_map break_of b)) }
{
    let mut least = None;
    let classes = world.classes().items();
    if classes.len() >= 0x1_0000_0000 {
        return Err(NoMemory);
    }
    let all = all_kinds(alloc, classes)?;
    let kinds = all.items();
    for (number, class) in classes.iter().enumerate() {
        let file = file_of(world.lines().items(), number);
        let spot = class_spot(file, class);
        let broken = class_break(alloc, world, settings, kinds, number as u32, class, spot)?;
        least = first(least, broken);
    }
    Ok(least)
}

/// The first rule that is broken at the list, whose name this is, or by the export files that it names.
fn list_break<'w>(list: &'w [u8], world: &'w World<'_>, settings: &Settings) -> Option<Break<'w>>
    ensures { IsFirstOf (list_breaks list.now world.now settings.now) (option_map break_of result) }
{
    let spot = RulePlace::of_list(list);
    let applets = settings.applets.items();
    let unfit = broken(has_unfit_applets(world, applets), spot, 309);
    let exported = broken(has_many_exported(world, settings), spot, 401);
    let classes = broken(world.classes().items().len() > 255, spot, 402);
    let handlers = broken(has_many_handlers(world), spot, 407);
    let package = broken(world.package().len() > 255, spot, 408);
    let lines = broken(applets.len() > 255, spot, 409);
    let exports = first(exports_break(world), unfit);
    let front = first(first(exports, exported), classes);
    first(first(first(front, handlers), package), lines)
}

/// The first of rules 301, 302, 304 to 307, 309, 310 and 401 to 409 that a package breaks, with its place in the order
/// of refusals, for whoever tests further rules of the same hundreds.
pub fn first_broken<'w>(
    alloc: Global,
    list: &'w [u8],
    world: &'w World<'_>,
    codes: &Codes,
    settings: &Settings,
) -> Result<Option<Break<'w>>, NoMemory>
    ensures { IfOk result (λ b. IsFirstOf (check_breaks list.now world.now codes.now settings.now)
        (option_map break_of b)) }
{
    let listed = list_break(list, world, settings);
    let classes = classes_break(alloc, world, settings)?;
    let instructions = codes_break(world, settings, codes.items());
    Ok(first(first(listed, classes), instructions))
}

/// Rules 301, 302, 304 to 307, 309, 310 and 401 to 409 of a package. A refusal is the first of what is broken. `codes`
/// has the instructions of the methods that have some. The list's name is that of its own file.
pub fn check(
    alloc: Global,
    list: &[u8],
    world: &World<'_>,
    codes: &Codes,
    settings: &Settings,
) -> Result<(), Fault>
    ensures unbroken { OnOk result (check_breaks list.now world.now codes.now settings.now ≡ []) }
    ensures refused { IfErr result (IsFirstRefusal (check_breaks list.now world.now codes.now settings.now)) }
{
    answer(alloc, first_broken(alloc, list, world, codes, settings)?)
}
