//! Whether a package is of the form that is converted.

ghost use Rattle.std.specs.Prelude.{◌≡◌, ◌↔◌, ◌≤◌, ◌++◌, ◌∷◌, [], ℕ, List, IsTrue, IfOk, IfSome, IfNone, replicate, drop, length, sum_by};
ghost use Rattle.std.specs.List.{list_all, list_any};
ghost use Rattle.cjc_first.specs.Selected.{widest as widest_lem};
ghost use Rattle.cjc_classfile.specs.Code.{CodeTree};
ghost use Rattle.cjc_code.specs.PackageCodes.{all_codes, first_insns};
ghost use Rattle.cjc_first.specs.Tests.{HasPlainFrame, HasSum, IsSlashPart, IsInside, HasPlainHead, HasMethodsAlone, HasPlainClass, IsFormWith};
ghost use Rattle.cjc_first.specs.FirstForm.{PackageLine, IsFirstForm, IsPart, IsSumCode, IsSumMethod, shorts, is_name_byte as is_name_byte_lem, is_push as is_push_lem, is_iadd as is_iadd_lem, is_i2s as is_i2s_lem, is_ireturn as is_ireturn_lem, is_rest as is_rest_lem, is_sum as is_sum_lem, is_name_item as is_name_item_lem, ops_of};

use cjc_classfile::{ClassTree, Code, MethodTree, PoolItem};
use cjc_code::{JInsn, JOp, MethodCode};
use cjc_export::{ExportClass, ExportTree};

/// A package of the form, by its parts.
#[derive(Clone, Copy)]
pub struct Form<'w, 'a> {
    /// The export file.
    pub lang: &'w ExportTree,
    /// Its class java/lang/Object.
    pub root: &'w ExportClass,
    pub tree: &'w ClassTree<'a>,
    /// The number of parameters of the method.
    pub params: u8,
    /// The instructions of the method.
    pub insns: &'w [JInsn],
}

// A digit, a letter, `_` or `$`.
fn is_name_byte(c: u8) -> bool
    ensures { result ≡ is_name_byte_lem c }
{
    matches!(c, b'0'..=b'9' | b'A'..=b'Z' | b'a'..=b'z' | b'_' | b'$')
}

fn are_name_bytes(name: &[u8]) -> bool
    ensures { result ≡ list_all is_name_byte_lem name.now }
{
    name.iter().all(|c| is_name_byte(*c))
}

// Whether a name is one part: some bytes of names.
pub(crate) fn is_part(name: &[u8]) -> bool
    ensures { IsTrue result ↔ IsPart name.now }
{
    !name.is_empty() && are_name_bytes(name)
}

// Whether this is so many times S, then the end of the parameters and a result S.
fn is_tail(rest: &[u8], params: u8) -> bool
    ensures { IsTrue result ↔ (rest.now ≡ replicate params 83 ++ 41 ∷ 83 ∷ []) }
{
    if params == 0 {
        return rest == b")S".as_slice();
    }
    match rest {
        [b'S', more @ ..] => is_tail(more, params - 1),
        _ => false,
    }
}

fn is_shorts(desc: &[u8], params: u8) -> bool
    ensures { IsTrue result ↔ (desc.now ≡ shorts params) }
{
    match desc {
        [b'(', rest @ ..] => is_tail(rest, params),
        _ => false,
    }
}

// How many parameters the descriptor of a method of shorts has, where it is one and they are at most 15.
fn short_params(desc: &[u8]) -> Option<u8>
    ensures found { IfSome result (λ n. (desc.now ≡ shorts n) × (n ≤ 15)) }
    ensures none { IfNone result ((n : ℕ) → n ≤ 15 → desc.now ≡ shorts n → ⊥) }
{
    for params in 0..16 {
        if is_shorts(desc, params) {
            return Some(params);
        }
    }
    None
}

fn is_push(params: u8, op: &JOp) -> bool
    ensures { result ≡ is_push_lem params op.now }
{
    match op {
        JOp::Number(_) => true,
        JOp::Load { refs: false, local } => *local < u16::from(params),
        _ => false,
    }
}

fn is_iadd(op: &JOp) -> bool
    ensures { result ≡ is_iadd_lem op.now }
{
    matches!(op, JOp::Arith(0x60))
}

fn is_i2s(op: &JOp) -> bool
    ensures { result ≡ is_i2s_lem op.now }
{
    matches!(op, JOp::Narrow(0x93))
}

fn is_ireturn(op: &JOp) -> bool
    ensures { result ≡ is_ireturn_lem op.now }
{
    matches!(op, JOp::Return(0xAC))
}

// Any number of times a push and iadd, then i2s and ireturn.
fn is_rest(params: u8, insns: &[JInsn]) -> bool
    ensures { result ≡ is_rest_lem params (ops_of insns.now) }
{
    let mut left = insns;
    while let [first, second, more @ ..] = left {
        if more.is_empty() {
            return is_i2s(&first.op) && is_ireturn(&second.op);
        }
        if !is_push(params, &first.op) || !is_iadd(&second.op) {
            return false;
        }
        left = more;
    }
    false
}

// A push, and such a rest.
fn is_sum(params: u8, insns: &[JInsn]) -> bool
    ensures { result ≡ is_sum_lem params (ops_of insns.now) }
{
    match insns {
        [first, rest @ ..] => is_push(params, &first.op) && is_rest(params, rest),
        [] => false,
    }
}

// Whether an iadd is among the instructions.
fn has_iadd(insns: &[JInsn]) -> bool
    ensures { result ≡ list_any is_iadd_lem (ops_of insns.now) }
{
    let mut left = insns;
    while let [first, more @ ..] = left {
        if is_iadd(&first.op) {
            return true;
        }
        left = more;
    }
    false
}

// The most bytes that are written for an instruction.
fn widest(op: &JOp) -> u32
    ensures { result ≡ widest_lem op.now }
{
    match op {
        JOp::Number(_) => 3,
        JOp::Load { .. } => 2,
        JOp::Arith(_) | JOp::Return(_) => 1,
        _ => 0,
    }
}

// Whether what is written for the instructions has 32,767 bytes at the most, whatever their operands.
fn is_small(insns: &[JInsn]) -> bool
    ensures { IsTrue result ↔ (sum_by widest_lem (ops_of insns.now) ≤ 32767) }
{
    let mut room = 32767;
    let mut left = insns;
    while let [first, more @ ..] = left {
        let size = widest(&first.op);
        if size > room {
            return false;
        }
        room -= size;
        left = more;
    }
    true
}

// Whether the frame is small enough for a short header, and there are no handlers.
fn has_plain_frame(params: u8, code: &Code<'_>) -> bool
    ensures { IsTrue result ↔ HasPlainFrame params code.now }
{
    code.bytes.len() <= 65535
        && 1 <= code.max_stack
        && code.max_stack <= 15
        && u16::from(params) <= code.max_locals
        && code.max_locals <= 15
        && code.catches.items().is_empty()
}

// Whether a code with these instructions is of the form.
fn is_sum_code(params: u8, code: &Code<'_>, insns: &[JInsn]) -> bool
    ensures { IsTrue result ↔ IsSumCode params code.now insns.now }
{
    if !has_plain_frame(params, code) {
        return false;
    }
    has_sum(params, code.max_stack, insns)
}

// Whether the instructions are those of the form, for this stack.
fn has_sum(params: u8, max_stack: u16, insns: &[JInsn]) -> bool
    ensures { IsTrue result ↔ HasSum params max_stack insns.now }
{
    is_sum(params, insns) && (max_stack >= 2 || !has_iadd(insns)) && is_small(insns)
}

fn is_method_name(name: &[u8]) -> bool
    ensures { IsTrue result ↔ (IsPart name.now × (length name.now ≤ 65535)) }
{
    is_part(name) && name.len() <= 65535
}

// The number of parameters of a method of the form, which has these instructions.
fn sum_method(method: &MethodTree<'_>, insns: &[JInsn]) -> Option<u8>
    ensures found { IfSome result (λ params. (code : CodeTree) × IsSumMethod params method.now code insns.now) }
    ensures none { IfNone result ((params : ℕ) (code : CodeTree) → IsSumMethod params method.now code insns.now → ⊥) }
{
    if method.flags != 0x0009 || !is_method_name(method.name.items()) {
        return None;
    }
    let params = short_params(method.desc.items())?;
    let Some(code) = &method.code else {
        return None;
    };
    if is_sum_code(params, code, insns) {
        Some(params)
    } else {
        None
    }
}

// Whether the items are class names and what code doesn't name alone.
fn are_name_items(items: &[PoolItem]) -> bool
    ensures { result ≡ list_all is_name_item_lem items.now }
{
    let mut left = items;
    while let [first, more @ ..] = left {
        if !matches!(first, PoolItem::Class(_) | PoolItem::Other) {
            return false;
        }
        left = more;
    }
    true
}

fn has_name_pool(pool: &[PoolItem]) -> bool
    ensures { result ≡ list_all is_name_item_lem (drop 1 pool.now) }
{
    match pool {
        [_, items @ ..] => are_name_items(items),
        [] => true,
    }
}

// Whether this is a slash and one part.
fn is_slash_part(back: &[u8]) -> bool
    ensures { IsTrue result ↔ IsSlashPart back.now }
{
    match back {
        [b'/', part @ ..] => is_part(part),
        _ => false,
    }
}

// Whether the class's name is the package's, a slash and one part.
fn is_inside(owner: &[u8], class: &[u8]) -> bool
    ensures { IsTrue result ↔ IsInside owner.now class.now }
{
    if class.len() < owner.len() {
        return false;
    }
    let (front, back) = class.split_at(owner.len());
    front == owner && is_slash_part(back)
}

// Whether the version, the pool, the flags and the superclass are those of the form.
fn has_plain_head(tree: &ClassTree<'_>) -> bool
    ensures { IsTrue result ↔ HasPlainHead tree.now }
{
    45 <= tree.major
        && tree.major <= 52
        && has_name_pool(tree.pool.items())
        && (tree.flags == 0x0001 || tree.flags == 0x0021)
        && tree.superclass.items() == b"java/lang/Object".as_slice()
}

// Whether nothing but methods stands in the class.
fn has_methods_alone(tree: &ClassTree<'_>) -> bool
    ensures { IsTrue result ↔ HasMethodsAlone tree.now }
{
    tree.interfaces.items().is_empty() && tree.fields.items().is_empty()
}

// Whether the class is of the form, but for its method.
fn has_plain_class(owner: &[u8], tree: &ClassTree<'_>) -> bool
    ensures { IsTrue result ↔ HasPlainClass owner.now tree.now }
{
    owner.len() <= 255
        && tree.name.items().len() <= 65535
        && has_plain_head(tree)
        && has_methods_alone(tree)
        && is_inside(owner, tree.name.items())
}

/// The number of parameters of the method of a package of the form, whose class has these codes.
pub fn first_form(owner: &[u8], tree: &ClassTree<'_>, codes: &[MethodCode]) -> Option<u8>
    requires { codes.now ≡ all_codes (tree.now ∷ []) }
    ensures found { (line : PackageLine) → line.name ≡ owner.now → IfSome result (λ params. IsFormWith line tree.now params (first_insns codes.now)) }
    ensures none { (line : PackageLine) → line.name ≡ owner.now → IfNone result (IsFirstForm line tree.now → ⊥) }
{
    if !has_plain_class(owner, tree) {
        return None;
    }
    let [method] = tree.methods.items() else {
        return None;
    };
    let [code] = codes else {
        return None;
    };
    sum_method(method, code.insns.items())
}
