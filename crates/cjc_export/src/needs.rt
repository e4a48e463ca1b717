//! Which constants a written file needs, in the order in which writing needs them.

ghost use Rattle.std.specs.Prelude.{◌≡◌, length, IfOk, OnOk};
ghost use Rattle.std.specs.List.{flat_map};
ghost use Rattle.indexmap.specs.IndexSet.{insert_all};
ghost use Rattle.cjc_export.specs.Constant.{same};
ghost use Rattle.cjc_export.specs.Written.{class_needs, value_name, value_needs, field_needs, method_needs};
ghost use Rattle.cjc_export.specs.Written.{class_tree_needs, constants};

use crate::constants::{Constant, Pool};
use crate::tree::{ExportClass, ExportField, ExportMethod, ExportTree};
use cjc_bytes::{Bytes, NoMemory};
use std::alloc::Global;

fn need_class<'a>(name: &'a [u8], pool: &mut Pool<'a>) -> Result<(), NoMemory>
    ensures { OnOk result (pool.new ≡ insert_all same pool.old (class_needs name.now)) }
{
    pool.add(Constant::text(name))?;
    pool.add(Constant::class(name))
}

#[tactic(auto, using(crate::proofs::Adding::needs_next, crate::proofs::Adding::needs_end))]
fn need_classes<'a>(names: &'a [Bytes], pool: &mut Pool<'a>) -> Result<(), NoMemory>
    ensures { OnOk result (pool.new ≡ insert_all same pool.old (flat_map class_needs names.now)) }
{
    for name in names {
        need_class(name.items(), pool)?;
    }
    Ok(())
}

/// The name of the attribute that holds a constant's value.
#[tactic(auto, unfolding(crate::specs::Written::value_name))]
pub(crate) fn value_name<'a>() -> Constant<'a>
    ensures { result ≡ value_name }
{
    Constant::text(b"ConstantValue")
}

fn need_value<'a>(value: Option<i32>, pool: &mut Pool<'a>) -> Result<(), NoMemory>
    ensures { OnOk result (pool.new ≡ insert_all same pool.old (value_needs value)) }
{
    match value {
        Some(value) => {
            pool.add(value_name())?;
            pool.add(Constant::integer(value.cast_unsigned()))
        }
        None => Ok(()),
    }
}

fn need_field<'a>(field: &'a ExportField, pool: &mut Pool<'a>) -> Result<(), NoMemory>
    ensures { OnOk result (pool.new ≡ insert_all same pool.old (field_needs field.now)) }
{
    pool.add(Constant::text(field.name.items()))?;
    pool.add(Constant::text(field.desc.items()))?;
    need_value(field.constant, pool)
}

#[tactic(auto, using(crate::proofs::Adding::needs_next, crate::proofs::Adding::needs_end))]
fn need_fields<'a>(fields: &'a [ExportField], pool: &mut Pool<'a>) -> Result<(), NoMemory>
    ensures { OnOk result (pool.new ≡ insert_all same pool.old (flat_map field_needs fields.now)) }
{
    for field in fields {
        need_field(field, pool)?;
    }
    Ok(())
}

fn need_method<'a>(method: &'a ExportMethod, pool: &mut Pool<'a>) -> Result<(), NoMemory>
    ensures { OnOk result (pool.new ≡ insert_all same pool.old (method_needs method.now)) }
{
    pool.add(Constant::text(method.name.items()))?;
    pool.add(Constant::text(method.desc.items()))
}

#[tactic(auto, using(crate::proofs::Adding::needs_next, crate::proofs::Adding::needs_end))]
fn need_methods<'a>(methods: &'a [ExportMethod], pool: &mut Pool<'a>) -> Result<(), NoMemory>
    ensures { OnOk result (pool.new ≡ insert_all same pool.old (flat_map method_needs methods.now)) }
{
    for method in methods {
        need_method(method, pool)?;
    }
    Ok(())
}

#[tactic(auto, using(crate::proofs::Adding::needs_append), unfolding(crate::specs::Written::class_tree_needs))]
fn need_class_tree<'a>(class: &'a ExportClass, pool: &mut Pool<'a>) -> Result<(), NoMemory>
    ensures { OnOk result (pool.new ≡ insert_all same pool.old (class_tree_needs class.now)) }
{
    need_class(class.name.items(), pool)?;
    need_classes(class.listed.items(), pool)?;
    need_classes(class.interfaces.items(), pool)?;
    need_fields(class.fields.items(), pool)?;
    need_methods(class.methods.items(), pool)
}

#[tactic(auto, using(crate::proofs::Adding::needs_next, crate::proofs::Adding::needs_end))]
fn need_class_trees<'a>(classes: &'a [ExportClass], pool: &mut Pool<'a>) -> Result<(), NoMemory>
    ensures { OnOk result (pool.new ≡ insert_all same pool.old (flat_map class_tree_needs classes.now)) }
{
    for class in classes {
        need_class_tree(class, pool)?;
    }
    Ok(())
}

/// The pool of the tree's file.
#[tactic(auto, unfolding(crate::specs::Written::needs))]
pub(crate) fn constants(alloc: Global, tree: &ExportTree) -> Result<Pool<'_>, NoMemory>
    ensures { IfOk result (λ pool. pool ≡ constants tree.now) }
{
    let mut pool = Pool::new(alloc);
    pool.add(Constant::text(tree.name.items()))?;
    pool.add(Constant::this())?;
    need_class_trees(tree.classes.items(), &mut pool)?;
    Ok(pool)
}

/// How many entries the pool of the tree's file has.
pub fn pool_size(alloc: Global, tree: &ExportTree) -> Result<usize, NoMemory>
    ensures { IfOk result (λ size. size ≡ length (constants tree.now)) }
{
    Ok(constants(alloc, tree)?.len())
}
