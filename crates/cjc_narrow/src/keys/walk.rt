//! The walk over narrow code that sees its keys. It knows no token.

ghost use Rattle.std.specs.Prelude.{◌≡◌, ◌∷◌, [], filter, IfOk, OnOk};
ghost use Rattle.std.specs.List.{flat_map, list_any};
ghost use Rattle.indexmap.specs.IndexSet.{insert_all};
ghost use Rattle.cjc_ncode.specs.PoolOrder.{any_exception, class_key, has_catch_type, insn_keys, is_some, method_keys};
ghost use Rattle.cjc_ncode.specs.PoolOrder.{pool_order, same_key};
ghost use Rattle.cjc_narrow.specs.Keys.Working.Walk.{catch_keys, is_wanted, wanted};

use crate::keys::key::Key;
use crate::keys::numbers::Numbers;
use cjc_ncode::{NCatch, NInsn, NMethod};
use cjc_types::bytes::{Bytes, NoMemory};
use std::alloc::Global;

/// The class of any exception.
const OBJECT: &[u8] = b"java/lang/Object";

/// Adds a key of the wanted kind.
fn add_key(
    numbers: &mut Numbers,
    alloc: Global,
    fields: bool,
    key: &Key<'_>,
) -> Result<(), NoMemory>
    ensures { OnOk result (numbers.new ≡ insert_all same_key numbers.old (filter (is_wanted fields) (key.now ∷ []))) }
{
    if key.is_field() == fields {
        numbers.add(alloc, key)?;
    }
    Ok(())
}

fn add_class(
    numbers: &mut Numbers,
    alloc: Global,
    fields: bool,
    class: &Option<Bytes>,
) -> Result<(), NoMemory>
    ensures { OnOk result (numbers.new ≡ insert_all same_key numbers.old (filter (is_wanted fields)
        (class_key class.now))) }
{
    match class {
        Some(name) => add_key(numbers, alloc, fields, &Key::class(name.items())),
        None => Ok(()),
    }
}

fn add_insn(
    numbers: &mut Numbers,
    alloc: Global,
    fields: bool,
    insn: &NInsn,
) -> Result<(), NoMemory>
    ensures { OnOk result (numbers.new ≡ insert_all same_key numbers.old (wanted fields insn_keys insn.now)) }
{
    match insn {
        NInsn::Named { op: _, key } => add_key(numbers, alloc, fields, &Key::lent(key)),
        NInsn::Interface { nargs: _, method } => {
            add_key(numbers, alloc, fields, &Key::class(method.class.items()))
        }
        NInsn::TypeTest {
            op: _,
            kind: _,
            class,
        } => add_class(numbers, alloc, fields, class),
        _ => Ok(()),
    }
}

#[tactic(auto, using(crate::proofs::KeysLaws::Walks::walk_next, crate::proofs::KeysLaws::Walks::walk_end))]
fn add_insns(
    numbers: &mut Numbers,
    alloc: Global,
    fields: bool,
    insns: &[NInsn],
) -> Result<(), NoMemory>
    ensures { OnOk result (numbers.new ≡ insert_all same_key numbers.old (flat_map (wanted fields insn_keys)
        insns.now)) }
{
    for insn in insns {
        add_insn(numbers, alloc, fields, insn)?;
    }
    Ok(())
}

#[tactic(auto, using(crate::proofs::KeysLaws::Walks::walk_next, crate::proofs::KeysLaws::Walks::walk_end))]
fn add_catches(
    numbers: &mut Numbers,
    alloc: Global,
    fields: bool,
    catches: &[NCatch],
) -> Result<(), NoMemory>
    ensures { OnOk result (numbers.new ≡ insert_all same_key numbers.old (flat_map (wanted fields catch_keys)
        catches.now)) }
{
    for catch in catches {
        add_class(numbers, alloc, fields, &catch.class)?;
    }
    Ok(())
}

/// Adds the keys of a method's operands, then those of its catch types.
#[tactic(auto, using(crate::proofs::KeysLaws::Walks::wanted_in_method))]
fn add_method(
    numbers: &mut Numbers,
    alloc: Global,
    fields: bool,
    method: &NMethod,
) -> Result<(), NoMemory>
    ensures { OnOk result (numbers.new ≡ insert_all same_key numbers.old (wanted fields method_keys method.now)) }
{
    add_insns(numbers, alloc, fields, method.insns.items())?;
    add_catches(numbers, alloc, fields, method.catches.items())
}

#[tactic(auto, using(crate::proofs::KeysLaws::Walks::walk_next, crate::proofs::KeysLaws::Walks::walk_end))]
fn add_methods(
    numbers: &mut Numbers,
    alloc: Global,
    fields: bool,
    methods: &[NMethod],
) -> Result<(), NoMemory>
    ensures { OnOk result (numbers.new ≡ insert_all same_key numbers.old (flat_map (wanted fields method_keys)
        methods.now)) }
{
    for method in methods {
        add_method(numbers, alloc, fields, method)?;
    }
    Ok(())
}

fn has_type(catch: &NCatch) -> bool
    ensures { let c = catch.now in result ≡ is_some c.class }
{
    match &catch.class {
        Some(_) => true,
        None => false,
    }
}

fn has_catch_type(method: &NMethod) -> bool
    ensures { result ≡ has_catch_type method.now }
{
    method.catches.items().iter().any(|catch| has_type(catch))
}

fn any_catch_type(methods: &[NMethod]) -> bool
    ensures { result ≡ list_any has_catch_type methods.now }
{
    methods.iter().any(|method| has_catch_type(method))
}

/// Adds the class of any exception, where there is a catch type.
fn add_exception(numbers: &mut Numbers, alloc: Global, methods: &[NMethod]) -> Result<(), NoMemory>
    ensures { OnOk result (numbers.new ≡ insert_all same_key numbers.old (any_exception methods.now)) }
{
    if any_catch_type(methods) {
        numbers.add(alloc, &Key::class(OBJECT))
    } else {
        Ok(())
    }
}

/// The keys that these methods need, in the order of their pool.
#[tactic(auto, using(crate::proofs::KeysLaws::Walks::in_pool_order))]
pub fn number(alloc: Global, methods: &[NMethod]) -> Result<Numbers, NoMemory>
    ensures { IfOk result (λ numbers. numbers ≡ pool_order methods.now) }
{
    let mut numbers = Numbers::new(alloc);
    add_exception(&mut numbers, alloc, methods)?;
    add_methods(&mut numbers, alloc, true, methods)?;
    add_methods(&mut numbers, alloc, false, methods)?;
    Ok(numbers)
}
