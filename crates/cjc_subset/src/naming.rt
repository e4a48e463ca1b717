//! Rules 203, 205 and 206: what the instructions and the catch types of methods name is there, and may be used so.

ghost use Rattle.std.specs.Prelude.{◌≡◌, ◌||◌, ℕ, ◌<◌, true, false, [], length, slice_get, Option, option_map, IfErr};
ghost use Rattle.std.specs.Prelude.{IsTrue, OnOk};
ghost use Rattle.cjc_code.specs.Items.{is_interface_method};
ghost use Rattle.cjc_world.specs.Classes.{all_classes, class_named};
ghost use Rattle.cjc_world.specs.Exported.{is_imported};
ghost use Rattle.cjc_world.specs.Lookup.{own_of};
ghost use Rattle.cjc_world.specs.Rules.{is_class_of, is_interface_of};
ghost use Rattle.cjc_bytes.specs.Breaks.{IsFirstRefusal, IsFirstOf, each};
ghost use Rattle.cjc_world.specs.Working.Known.{class_of};
ghost use Rattle.cjc_bytes.specs.Told.{break_of, spot_of};
ghost use Rattle.cjc_subset.specs.Working.Hits.{hit_of};
ghost use Rattle.cjc_subset.specs.Places.{at_class, at_method};
ghost use Rattle.cjc_bytes.specs.Order.{FilePlace};
ghost use Rattle.cjc_subset.specs.Members.{hit};
ghost use Rattle.cjc_subset.specs.Names.{callee_found, catch_breaks, catches_missing, catches_of, code_breaks};
ghost use Rattle.cjc_subset.specs.Names.{entry_behind, field_found, has_interface_entry, insn_breaks, is_abstract_of};
ghost use Rattle.cjc_subset.specs.Names.{is_bodiless, is_by_interface, is_constant_found, is_member_missing};
ghost use Rattle.cjc_subset.specs.Names.{is_not_found, refers_wrongly, is_other_kind, is_unfit_call, is_unfit_class};
ghost use Rattle.cjc_subset.specs.Names.{is_unfit_field, is_unfit_method, is_unfit_new, is_unfit_super};
ghost use Rattle.cjc_subset.specs.Names.{is_unfit_virtual, lacks, method_breaks, method_found, name_breaks};
ghost use Rattle.cjc_subset.specs.Names.{names_missing, names_other_kind, names_unfit, names_unfound, puts_final};

use crate::members::{
    ResolvedMember, is_accessible, is_array, is_constant, is_constructor, is_desc_missing,
    is_initialiser, is_missing, is_name_missing, member_found,
};
use crate::places::{class_spot, method_spot};
use cjc_bytes::{
    Break, Bytes, Fault, MemberId, RulePlace, answer, broken, file_of, first, is_abstract,
    is_final, is_private, is_static,
};
use cjc_code::classfile::{Catch, ClassTree, Code, ItemKind, MethodTree, PoolItem};
use cjc_code::{Codes, JInsn, JOp, MethodCode, jvm};
use cjc_world::{Found, Known, World};
use std::alloc::Global;

// ---- 203

fn is_member_missing(world: &World<'_>, id: &MemberId) -> bool
    ensures { result ≡ is_member_missing (all_classes world.now) id.now }
{
    is_name_missing(world, id.class.items()) || is_desc_missing(world, id.desc.items())
}

/// Whether an instruction names a class that is in no file.
#[tactic(auto, unfolding(crate::specs::Names::names_missing))]
fn names_missing(world: &World<'_>, op: &JOp) -> bool
    ensures { result ≡ names_missing (all_classes world.now) op.now }
{
    match op {
        JOp::Static { field, .. } => is_member_missing(world, field),
        JOp::Field { field, .. } => is_member_missing(world, field),
        JOp::Call { method, .. } => is_member_missing(world, method),
        JOp::New(name) => is_name_missing(world, name.items()),
        JOp::ANewArray(name) => is_name_missing(world, name.items()),
        JOp::CheckCast(name) => is_name_missing(world, name.items()),
        JOp::InstanceOf(name) => is_name_missing(world, name.items()),
        _ => false,
    }
}

/// Whether a catch type is in no file, or an array.
#[tactic(auto, unfolding(crate::specs::Names::catches_missing))]
fn catches_missing(world: &World<'_>, class: &Option<Bytes>) -> bool
    ensures { result ≡ catches_missing (all_classes world.now) class.now }
{
    match class {
        Some(name) => is_array(name.items()) || is_missing(world, name.items()),
        None => false,
    }
}

// ---- 205

fn is_not_found(found: Option<Found>) -> bool
    ensures { result ≡ is_not_found found }
{
    match found {
        Some(_) => false,
        None => true,
    }
}

/// Whether the class of a member, which some file has, is an array or is without it.
fn lacks(world: &World<'_>, id: &MemberId, absent: bool) -> bool
    ensures { result ≡ lacks (all_classes world.now) id.now absent }
{
    let class = id.class.items();
    !is_name_missing(world, class) && (is_array(class) || absent)
}

/// Whether the named class does not declare the method itself.
fn is_undeclared(world: &World<'_>, id: &MemberId) -> bool
    ensures { result ≡ is_not_found (own_of id.now.name id.now.desc (class_named (all_classes world.now)
        id.now.class)) }
{
    match world.class_named(id.class.items()) {
        Some(class) => match class.place(false, id.name.items(), id.desc.items()) {
            Some(_) => false,
            None => true,
        },
        None => true,
    }
}

/// Whether the method that a call names is in no class where it may be.
fn is_callee_absent(world: &World<'_>, id: &MemberId) -> bool
    ensures { result ≡ is_not_found (callee_found (all_classes world.now) id.now) }
{
    if is_constructor(id.name.items()) {
        is_undeclared(world, id)
    } else {
        is_not_found(world.find_method(id))
    }
}

/// Whether the class of a member that an instruction names has no such member, or is an array.
#[tactic(auto, unfolding(crate::specs::Names::names_unfound))]
fn names_unfound(world: &World<'_>, op: &JOp) -> bool
    ensures { result ≡ names_unfound (all_classes world.now) op.now }
{
    match op {
        JOp::Static { field, .. } => lacks(world, field, is_not_found(world.find_field(field))),
        JOp::Field { field, .. } => lacks(world, field, is_not_found(world.find_field(field))),
        JOp::Call { method, .. } => lacks(world, method, is_callee_absent(world, method)),
        _ => false,
    }
}

/// Whether the entry whose index stands behind the opcode at a place of a code is an InterfaceMethodref.
fn has_entry(pool: &[PoolItem<'_>], code: &[u8], place: u32) -> bool
    ensures { result ≡ is_interface_method (entry_behind pool.now code.now place) }
{
    let place = place as usize;
    match (code.get(place + 1), code.get(place + 2)) {
        (Some(high), Some(low)) => match pool.get(usize::from(*high) * 256 + usize::from(*low)) {
            Some(item) => matches!(item.kind, ItemKind::InterfaceMethod(_)),
            None => false,
        },
        _ => false,
    }
}

fn has_interface_entry(pool: &[PoolItem<'_>], code: &Option<Code<'_>>, place: u32) -> bool
    ensures { result ≡ has_interface_entry pool.now code.now place }
{
    match code {
        Some(code) => has_entry(pool, code.bytes, place),
        None => false,
    }
}

/// Whether a call at a place of a method names its method as one of an interface.
fn is_by_interface(class: &ClassTree<'_>, method: &MethodTree<'_>, place: u32, op: u8) -> bool
    ensures { result ≡ is_by_interface class.now method.now place op }
{
    op != jvm::INVOKEVIRTUAL
        && (op == jvm::INVOKEINTERFACE
            || has_interface_entry(class.pool.items(), &method.code, place))
}

fn refers_wrongly(by_interface: bool, named: Option<Known<'_, '_>>) -> bool
    ensures { result ≡ refers_wrongly by_interface (option_map class_of named.entry) }
{
    if by_interface {
        is_class_of(named)
    } else {
        is_interface_of(named)
    }
}

/// Whether a call at a place of a method names a method of an interface as one of a class, or the other way round.
#[tactic(auto, unfolding(crate::specs::Names::names_other_kind))]
fn names_other_kind(
    world: &World<'_>,
    class: &ClassTree<'_>,
    method: &MethodTree<'_>,
    place: u32,
    op: &JOp,
) -> bool
    ensures { result ≡ names_other_kind (all_classes world.now) class.now method.now place op.now }
{
    match op {
        JOp::Call { op, method: id } => {
            let by_interface = is_by_interface(class, method, place, *op);
            refers_wrongly(by_interface, world.class_named(id.class.items()))
        }
        _ => false,
    }
}

// ---- 206

fn is_other_kind(wants_static: bool, flags: u16) -> bool
    ensures { result ≡ is_other_kind wants_static flags }
{
    if is_static(flags) {
        !wants_static
    } else {
        wants_static
    }
}

fn is_constant_found(world: &World<'_>, found: Option<Found>) -> bool
    ensures { result ≡ is_constant_found world.now found }
{
    match found {
        Some(found) => is_constant(world, found),
        None => false,
    }
}

/// Whether code of a class puts a final field of another class.
fn puts_final(class: &ClassTree<'_>, put: bool, hit: ResolvedMember<'_, '_>) -> bool
    ensures { result ≡ puts_final class.now put (hit_of hit.entry) }
{
    put && is_final(hit.flags) && hit.owner.name() != class.name.items()
}

/// Whether a field that is found can't be used by an instruction that needs a static one or one that is not, and that
/// puts or gets.
fn is_unfit_field(
    world: &World<'_>,
    class: &ClassTree<'_>,
    wants_static: bool,
    put: bool,
    id: &MemberId,
) -> bool
    ensures { result ≡ is_unfit_field world.now class.now wants_static put id.now (field_found (all_classes world.now)
        id.now) (hit (all_classes world.now) true (field_found (all_classes world.now) id.now)) }
{
    let found = world.find_field(id);
    match member_found(world, true, found) {
        Some(hit) => {
            !is_accessible(world, class.name.items(), id.class.items(), hit)
                || is_other_kind(wants_static, hit.flags)
                || wants_static && put && is_constant_found(world, found)
                || puts_final(class, put, hit)
        }
        None => false,
    }
}

fn is_interface_of(class: Option<Known<'_, '_>>) -> bool
    ensures { result ≡ is_interface_of (option_map class_of class.entry) }
{
    match class {
        Some(class) => class.is_interface(),
        None => false,
    }
}

fn is_class_of(class: Option<Known<'_, '_>>) -> bool
    ensures { result ≡ is_class_of (option_map class_of class.entry) }
{
    match class {
        Some(class) => !class.is_interface(),
        None => false,
    }
}

fn is_imported(class: Option<Known<'_, '_>>) -> bool
    ensures { result ≡ is_imported (option_map class_of class.entry) }
{
    match class {
        Some(class) => class.is_imported(),
        None => false,
    }
}

fn is_abstract_of(class: Option<Known<'_, '_>>) -> bool
    ensures { result ≡ is_abstract_of (option_map class_of class.entry) }
{
    match class {
        Some(class) => is_abstract(class.flags()),
        None => false,
    }
}

/// Whether invokevirtual can't call a method by this class.
fn is_unfit_virtual(named: Option<Known<'_, '_>>, hit: ResolvedMember<'_, '_>) -> bool
    ensures { result ≡ is_unfit_virtual (option_map class_of named.entry) (hit_of hit.entry) }
{
    is_imported(named) && hit.owner.is_interface()
}

fn is_bodiless(hit: Option<ResolvedMember<'_, '_>>) -> bool
    ensures { result ≡ is_bodiless (option_map hit_of hit.entry) }
{
    match hit {
        Some(hit) => is_abstract(hit.flags),
        None => true,
    }
}

/// Whether a class can't call a superclass's method by this name.
fn is_unfit_super(world: &World<'_>, class: &ClassTree<'_>, id: &MemberId) -> bool
    ensures { result ≡ is_unfit_super (all_classes world.now) class.now id.now }
{
    let superclass = class.superclass.items();
    !world.is_below(superclass, id.class.items())
        || is_bodiless(member_found(world, false, world.selected(superclass, id)))
}

/// Whether the opcode of a call can't call the method that is found, whatever class it is named by.
fn is_unfit_call(op: u8, name: &[u8], flags: u16) -> bool
    ensures { result ≡ is_unfit_call op name.now flags }
{
    is_other_kind(op == jvm::INVOKESTATIC, flags)
        || (op == jvm::INVOKEVIRTUAL || op == jvm::INVOKEINTERFACE) && is_private(flags)
        || is_initialiser(name)
        || op != jvm::INVOKESPECIAL && is_constructor(name)
}

/// Whether the class by which a method is named does not fit the opcode of the call.
fn is_unfit_class(
    world: &World<'_>,
    class: &ClassTree<'_>,
    op: u8,
    id: &MemberId,
    hit: ResolvedMember<'_, '_>,
) -> bool
    ensures { result ≡ is_unfit_class (all_classes world.now) class.now op id.now (hit_of hit.entry) }
{
    match op {
        jvm::INVOKEVIRTUAL => is_unfit_virtual(world.class_named(id.class.items()), hit),
        jvm::INVOKEINTERFACE => !hit.owner.is_interface(),
        jvm::INVOKESPECIAL => {
            !is_constructor(id.name.items())
                && !is_private(hit.flags)
                && is_unfit_super(world, class, id)
        }
        _ => false,
    }
}

/// Whether a method that is found can't be called by an opcode from code of a class.
fn is_unfit_method(world: &World<'_>, class: &ClassTree<'_>, op: u8, id: &MemberId) -> bool
    ensures { result ≡ is_unfit_method (all_classes world.now) class.now op id.now (hit (all_classes world.now) false
        (method_found (all_classes world.now) id.now)) }
{
    match member_found(world, false, world.find_method(id)) {
        Some(hit) => {
            !is_accessible(world, class.name.items(), id.class.items(), hit)
                || is_unfit_call(op, id.name.items(), hit.flags)
                || is_unfit_class(world, class, op, id, hit)
        }
        None => false,
    }
}

fn is_unfit_new(world: &World<'_>, name: &[u8]) -> bool
    ensures { result ≡ is_unfit_new (all_classes world.now) name.now }
{
    let class = world.class_named(name);
    is_array(name) || is_abstract_of(class) || is_interface_of(class)
}

/// Whether an instruction of a class can't use what it names.
#[tactic(auto, unfolding(crate::specs::Names::names_unfit))]
fn names_unfit(world: &World<'_>, class: &ClassTree<'_>, op: &JOp) -> bool
    ensures { result ≡ names_unfit world.now class.now op.now }
{
    match op {
        JOp::Static { put, field } => is_unfit_field(world, class, true, *put, field),
        JOp::Field { put, field } => is_unfit_field(world, class, false, *put, field),
        JOp::Call { op, method } => is_unfit_method(world, class, *op, method),
        JOp::New(name) => is_unfit_new(world, name.items()),
        _ => false,
    }
}

// ---- the first that is broken

/// The first rule that is broken at an instruction, whose place this is.
#[tactic(auto, unfolding(crate::specs::Names::insn_breaks))]
fn insn_break<'w>(
    world: &World<'_>,
    class: &ClassTree<'_>,
    method: &MethodTree<'_>,
    insn: &JInsn,
    spot: RulePlace<'w>,
) -> Option<Break<'w>>
    ensures { (f : FilePlace) (i : ℕ) → spot_of spot.entry ≡ at_method f class.now i method.now insn.now.at
        → IsFirstOf (insn_breaks world.now f class.now i method.now insn.now) (option_map break_of result) }
{
    let missing = broken(names_missing(world, &insn.op), spot, 203);
    let unfound = broken(names_unfound(world, &insn.op), spot, 205);
    let other = names_other_kind(world, class, method, insn.at, &insn.op);
    let other_kind = broken(other, spot, 205);
    let unfit = broken(names_unfit(world, class, &insn.op), spot, 206);
    first(first(first(missing, unfound), other_kind), unfit)
}

/// The first rule that is broken at these instructions of a method.
fn insns_break<'w>(
    world: &World<'_>,
    class: &'w ClassTree<'_>,
    place: usize,
    method: &'w MethodTree<'_>,
    insns: &[JInsn],
    spot: RulePlace<'w>,
) -> Option<Break<'w>>
    requires { place < length class.now.methods }
    ensures { (f : FilePlace) → spot_of spot.entry ≡ at_class f class.now
        → IsFirstOf (each (λ _ insn. insn_breaks world.now f class.now place method.now insn) insns.now)
        (option_map break_of result) }
{
    let mut least = None;
    for insn in insns {
        let spot = method_spot(spot, class, place, method, insn.at);
        least = first(least, insn_break(world, class, method, insn, spot));
    }
    least
}

/// The first rule that is broken at these handlers of a method.
fn catches_break<'w>(
    world: &World<'_>,
    class: &'w ClassTree<'_>,
    place: usize,
    method: &'w MethodTree<'_>,
    catches: &[Catch],
    spot: RulePlace<'w>,
) -> Option<Break<'w>>
    requires { place < length class.now.methods }
    ensures { (f : FilePlace) → spot_of spot.entry ≡ at_class f class.now
        → IsFirstOf (each (λ _ k. catch_breaks world.now f class.now place method.now k) catches.now)
        (option_map break_of result) }
{
    let mut least = None;
    for catch in catches {
        let spot = method_spot(spot, class, place, method, catch.target as u32);
        least = first(
            least,
            broken(catches_missing(world, &catch.class), spot, 203),
        );
    }
    least
}

/// The handlers of a method's code.
pub(crate) fn catches_of<'w>(method: &'w MethodTree<'_>) -> &'w [Catch]
    ensures { result.now ≡ catches_of method.now.code }
{
    match &method.code {
        Some(code) => code.catches.items(),
        None => &[],
    }
}

/// The first rule that is broken in a method that has these instructions.
#[tactic(auto, unfolding(crate::specs::Names::method_breaks))]
fn method_break<'w>(
    world: &World<'_>,
    class: &'w ClassTree<'_>,
    place: usize,
    method: &'w MethodTree<'_>,
    insns: &[JInsn],
    spot: RulePlace<'w>,
) -> Option<Break<'w>>
    requires { place < length class.now.methods }
    ensures { (f : FilePlace) → spot_of spot.entry ≡ at_class f class.now
        → IsFirstOf (method_breaks world.now f class.now place method.now insns.now) (option_map break_of result) }
{
    first(
        insns_break(world, class, place, method, insns, spot),
        catches_break(world, class, place, method, catches_of(method), spot),
    )
}

/// Whether one of these rules is broken at an instruction of a method.
fn breaks_any(
    world: &World<'_>,
    class: &ClassTree<'_>,
    method: &MethodTree<'_>,
    insn: &JInsn,
) -> bool
    ensures { result ≡ (names_missing (all_classes world.now) insn.now.op || (names_unfound (all_classes world.now)
        insn.now.op || (names_other_kind (all_classes world.now) class.now method.now insn.now.at insn.now.op
        || names_unfit world.now class.now insn.now.op))) }
{
    names_missing(world, &insn.op)
        || (names_unfound(world, &insn.op)
            || (names_other_kind(world, class, method, insn.at, &insn.op)
                || names_unfit(world, class, &insn.op)))
}

/// Whether none of them is broken at these instructions of a method, wherever its class stands.
fn are_clean(
    world: &World<'_>,
    class: &ClassTree<'_>,
    method: &MethodTree<'_>,
    insns: &[JInsn],
) -> bool
    ensures { IsTrue result → (f : FilePlace) (place : ℕ)
        → each (λ _ insn. insn_breaks world.now f class.now place method.now insn) insns.now ≡ [] }
{
    for insn in insns {
        if breaks_any(world, class, method, insn) {
            return false;
        }
    }
    true
}

/// Whether a method may have handlers.
fn has_handlers(method: &MethodTree<'_>) -> bool
    ensures { result ≡ false → catches_of method.now.code ≡ [] }
{
    match catches_of(method) {
        [] => false,
        _ => true,
    }
}

/// Whether none of them is broken in a method without handlers, wherever its class stands.
fn is_clean(
    world: &World<'_>,
    class: &ClassTree<'_>,
    method: &MethodTree<'_>,
    insns: &[JInsn],
) -> bool
    ensures { IsTrue result → (f : FilePlace) (place : ℕ)
        → method_breaks world.now f class.now place method.now insns.now ≡ [] }
{
    if has_handlers(method) {
        return false;
    }
    are_clean(world, class, method, insns)
}

/// The first rule that is broken in the method of a code. The file of a class is asked for only where one may be.
#[tactic(auto, unfolding(crate::specs::Names::code_breaks))]
fn code_break<'w>(world: &'w World<'_>, code: &MethodCode) -> Option<Break<'w>>
    ensures { IsFirstOf (code_breaks world.now code.now) (option_map break_of result) }
{
    let class = world.classes().items().get(code.class as usize)?;
    let place = code.method as usize;
    let method = class.methods.items().get(place)?;
    if is_clean(world, class, method, code.insns.items()) {
        return None;
    }
    let file = file_of(world.lines().items(), code.class as usize);
    let spot = class_spot(file, class);
    method_break(world, class, place, method, code.insns.items(), spot)
}

/// The first rule that is broken in these methods.
#[tactic(auto, unfolding(crate::specs::Names::name_breaks))]
fn codes_break<'w>(world: &'w World<'_>, codes: &[MethodCode]) -> Option<Break<'w>>
    ensures { IsFirstOf (name_breaks world.now codes.now) (option_map break_of result) }
{
    let mut least = None;
    for code in codes {
        least = first(least, code_break(world, code));
    }
    least
}

/// Rules 203, 205 and 206 of the instructions and the catch types of a package's methods. A refusal is the first of
/// what is broken. `codes` has the instructions of the methods that have some. No place of these rules is the list.
pub fn names(alloc: Global, _list: &[u8], world: &World<'_>, codes: &Codes) -> Result<(), Fault>
    ensures unbroken { OnOk result (name_breaks world.now codes.now ≡ []) }
    ensures refused { IfErr result (IsFirstRefusal (name_breaks world.now codes.now)) }
{
    answer(alloc, codes_break(world, codes.items()))
}
