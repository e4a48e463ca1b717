//! An export file written from its tree: magic, the constants of `pool`, and then the classes with indices into
//! it. Whoever gives the tree has tested that it can be written.

ghost use Rattle.std.specs.Prelude.{◌≡◌, ◌<◌, ◌^◌, ◌++◌, length, All, IfOk, OnOk};
ghost use Rattle.std.specs.List.{flat_map};
ghost use Rattle.cjc_bytes.specs.Format.{FileSpells};
ghost use Rattle.cjc_export.specs.ExportFile.{export_file};
ghost use Rattle.cjc_export.specs.Written.{class_ref, value_bytes, field_bytes, method_bytes, members_bytes};
ghost use Rattle.cjc_export.specs.Written.{class_bytes, package_bytes, constant_bytes, head_bytes, bytes_over};
ghost use Rattle.cjc_export.specs.Written.{index_bytes, written};
ghost use Rattle.cjc_export.specs.Writable.{ConstantFits, CountsFit, IsWritable};

use crate::constants::{Constant, Kind, Pool};
use crate::needs::{constants, value_name};
use crate::tree::{ExportClass, ExportField, ExportMethod, ExportTree};
use cjc_bytes::{Bytes, NoMemory, Out};
use std::alloc::Global;

fn put_index(constant: &Constant<'_>, pool: &Pool<'_>, out: &mut Out) -> Result<(), NoMemory>
    requires { length pool.now < 2 ^ 16 }
    ensures { OnOk result (out.new ≡ out.old ++ index_bytes pool.now constant.now) }
{
    out.put2(pool.index_of(constant))
}

fn put_class_ref(name: &[u8], pool: &Pool<'_>, out: &mut Out) -> Result<(), NoMemory>
    requires { length pool.now < 2 ^ 16 }
    ensures { OnOk result (out.new ≡ out.old ++ class_ref pool.now name.now) }
{
    put_index(&Constant::class(name), pool, out)
}

#[tactic(auto, using(crate::proofs::Putting::put_next, crate::proofs::Putting::put_end))]
fn put_class_refs(names: &[Bytes], pool: &Pool<'_>, out: &mut Out) -> Result<(), NoMemory>
    requires { length pool.now < 2 ^ 16 }
    ensures { OnOk result (out.new ≡ out.old ++ flat_map (class_ref pool.now) names.now) }
{
    for name in names {
        put_class_ref(name.items(), pool, out)?;
    }
    Ok(())
}

#[tactic(auto, using(std::proofs::Common::append_assoc))]
fn put_value(value: Option<i32>, pool: &Pool<'_>, out: &mut Out) -> Result<(), NoMemory>
    requires { length pool.now < 2 ^ 16 }
    ensures { OnOk result (out.new ≡ out.old ++ value_bytes pool.now value) }
{
    match value {
        Some(value) => {
            out.put2(1)?;
            put_index(&value_name(), pool, out)?;
            out.put4(2)?;
            put_index(&Constant::integer(value.cast_unsigned()), pool, out)
        }
        None => out.put2(0),
    }
}

#[tactic(auto, using(std::proofs::Common::append_assoc), unfolding(crate::specs::Written::field_bytes))]
fn put_field(field: &ExportField, pool: &Pool<'_>, out: &mut Out) -> Result<(), NoMemory>
    requires { length pool.now < 2 ^ 16 }
    ensures { OnOk result (out.new ≡ out.old ++ field_bytes pool.now field.now) }
{
    out.put1(field.token)?;
    out.put2(field.flags)?;
    put_index(&Constant::text(field.name.items()), pool, out)?;
    put_index(&Constant::text(field.desc.items()), pool, out)?;
    put_value(field.constant, pool, out)
}

#[tactic(auto, using(crate::proofs::Putting::put_next, crate::proofs::Putting::put_end))]
fn put_fields(fields: &[ExportField], pool: &Pool<'_>, out: &mut Out) -> Result<(), NoMemory>
    requires { length pool.now < 2 ^ 16 }
    ensures { OnOk result (out.new ≡ out.old ++ flat_map (field_bytes pool.now) fields.now) }
{
    for field in fields {
        put_field(field, pool, out)?;
    }
    Ok(())
}

#[tactic(auto, using(std::proofs::Common::append_assoc), unfolding(crate::specs::Written::method_bytes))]
fn put_method(method: &ExportMethod, pool: &Pool<'_>, out: &mut Out) -> Result<(), NoMemory>
    requires { length pool.now < 2 ^ 16 }
    ensures { OnOk result (out.new ≡ out.old ++ method_bytes pool.now method.now) }
{
    out.put1(method.token)?;
    out.put2(method.flags)?;
    put_index(&Constant::text(method.name.items()), pool, out)?;
    put_index(&Constant::text(method.desc.items()), pool, out)
}

#[tactic(auto, using(crate::proofs::Putting::put_next, crate::proofs::Putting::put_end))]
fn put_methods(methods: &[ExportMethod], pool: &Pool<'_>, out: &mut Out) -> Result<(), NoMemory>
    requires { length pool.now < 2 ^ 16 }
    ensures { OnOk result (out.new ≡ out.old ++ flat_map (method_bytes pool.now) methods.now) }
{
    for method in methods {
        put_method(method, pool, out)?;
    }
    Ok(())
}

#[tactic(auto, using(std::proofs::Common::append_assoc), unfolding(crate::specs::Written::members_bytes))]
fn put_members(class: &ExportClass, pool: &Pool<'_>, out: &mut Out) -> Result<(), NoMemory>
    requires pool { length pool.now < 2 ^ 16 }
    requires counts { CountsFit class.now }
    ensures { OnOk result (out.new ≡ out.old ++ members_bytes pool.now class.now) }
{
    let fields = class.fields.items();
    out.put2(fields.len() as u16)?;
    put_fields(fields, pool, out)?;
    let methods = class.methods.items();
    out.put2(methods.len() as u16)?;
    put_methods(methods, pool, out)
}

#[tactic(auto, using(std::proofs::Common::append_assoc), unfolding(crate::specs::Written::class_bytes))]
fn put_class(class: &ExportClass, pool: &Pool<'_>, out: &mut Out) -> Result<(), NoMemory>
    requires pool { length pool.now < 2 ^ 16 }
    requires counts { CountsFit class.now }
    ensures { OnOk result (out.new ≡ out.old ++ class_bytes pool.now class.now) }
{
    out.put1(class.token)?;
    out.put2(class.flags)?;
    put_class_ref(class.name.items(), pool, out)?;
    let listed = class.listed.items();
    out.put2(listed.len() as u16)?;
    put_class_refs(listed, pool, out)?;
    let interfaces = class.interfaces.items();
    out.put1(interfaces.len() as u8)?;
    put_class_refs(interfaces, pool, out)?;
    put_members(class, pool, out)
}

#[tactic(auto, using(crate::proofs::Putting::put_next, crate::proofs::Putting::put_end))]
fn put_classes(classes: &[ExportClass], pool: &Pool<'_>, out: &mut Out) -> Result<(), NoMemory>
    requires pool { length pool.now < 2 ^ 16 }
    requires counts { All CountsFit classes.now }
    ensures { OnOk result (out.new ≡ out.old ++ flat_map (class_bytes pool.now) classes.now) }
{
    for class in classes {
        put_class(class, pool, out)?;
    }
    Ok(())
}

/// The entry of the package behind its tag.
#[tactic(auto, using(std::proofs::Common::append_assoc), unfolding(crate::specs::Written::package_bytes))]
fn put_package(tree: &ExportTree, pool: &Pool<'_>, out: &mut Out) -> Result<(), NoMemory>
    requires pool { length pool.now < 2 ^ 16 }
    requires aid { length tree.now.aid < 2 ^ 8 }
    ensures { OnOk result (out.new ≡ out.old ++ package_bytes tree.now pool.now) }
{
    out.put1(if tree.library { 1 } else { 0 })?;
    put_index(&Constant::text(tree.name.items()), pool, out)?;
    out.put1(tree.minor)?;
    out.put1(tree.major)?;
    let aid = tree.aid.items();
    out.put1(aid.len() as u8)?;
    out.put_slice(aid)
}

#[tactic(auto, using(std::proofs::Common::append_assoc), unfolding(crate::specs::Written::constant_bytes))]
fn put_constant(
    tree: &ExportTree,
    constant: &Constant<'_>,
    pool: &Pool<'_>,
    out: &mut Out,
) -> Result<(), NoMemory>
    requires pool { length pool.now < 2 ^ 16 }
    requires text { ConstantFits constant.now }
    requires aid { length tree.now.aid < 2 ^ 8 }
    ensures { OnOk result (out.new ≡ out.old ++ constant_bytes tree.now pool.now constant.now) }
{
    match &constant.kind {
        Kind::Text(bytes) => {
            out.put1(1)?;
            out.put2(bytes.len() as u16)?;
            out.put_slice(bytes)
        }
        Kind::Integer(bits) => {
            out.put1(3)?;
            out.put4(*bits)
        }
        Kind::Class(name) => {
            out.put1(7)?;
            put_index(&Constant::text(name), pool, out)
        }
        Kind::This => {
            out.put1(13)?;
            put_package(tree, pool, out)
        }
    }
}

#[tactic(auto, using(crate::proofs::Putting::put_at, crate::proofs::Putting::put_end))]
fn put_constants(tree: &ExportTree, pool: &Pool<'_>, out: &mut Out) -> Result<(), NoMemory>
    requires pool { length pool.now < 2 ^ 16 }
    requires texts { All ConstantFits pool.now }
    requires aid { length tree.now.aid < 2 ^ 8 }
    ensures { OnOk result (out.new ≡ out.old ++ flat_map (constant_bytes tree.now pool.now) pool.now) }
{
    for i in 0..pool.len() {
        put_constant(tree, pool.at(i), pool, out)?;
    }
    Ok(())
}

/// Magic, version and the count of the pool.
#[tactic(auto, using(std::proofs::Common::append_assoc), unfolding(crate::specs::Written::head_bytes))]
fn put_head(pool: &Pool<'_>, out: &mut Out) -> Result<(), NoMemory>
    requires { length pool.now < 2 ^ 16 }
    ensures { OnOk result (out.new ≡ out.old ++ head_bytes pool.now) }
{
    out.put4(0x00FA_CADE)?;
    out.put1(2)?;
    out.put1(2)?;
    out.put2(pool.len() as u16)
}

/// The whole file.
#[tactic(auto, using(std::proofs::Common::append_assoc), unfolding(crate::specs::Written::bytes_over))]
pub(crate) fn put_file(tree: &ExportTree, pool: &Pool<'_>, out: &mut Out) -> Result<(), NoMemory>
    requires pool { length pool.now < 2 ^ 16 }
    requires texts { All ConstantFits pool.now }
    requires aid { length tree.now.aid < 2 ^ 8 }
    requires count { length tree.now.classes < 2 ^ 8 }
    requires classes { All CountsFit tree.now.classes }
    ensures { OnOk result (out.new ≡ out.old ++ bytes_over pool.now tree.now) }
{
    put_head(pool, out)?;
    put_constants(tree, pool, out)?;
    put_index(&Constant::this(), pool, out)?;
    let classes = tree.classes.items();
    out.put1(classes.len() as u8)?;
    put_classes(classes, pool, out)
}

#[tactic(auto, unfolding(crate::specs::Written::written))]
fn write_bytes(alloc: Global, tree: &ExportTree) -> Result<Bytes, NoMemory>
    requires { IsWritable tree.now }
    ensures { IfOk result (λ bytes. bytes ≡ written tree.now) }
{
    let pool = constants(alloc, tree)?;
    let mut out = Out::new(alloc);
    put_file(tree, &pool, &mut out)?;
    Ok(out.finish())
}

/// The bytes of the tree's export file. Its pool has each constant once, in the order in which writing from the
/// package on first needs them, a name before the entry that names it.
pub fn write(alloc: Global, tree: &ExportTree) -> Result<Bytes, NoMemory>
    requires { IsWritable tree.now }
    ensures written { IfOk result (λ bytes. bytes ≡ written tree.now) }
    ensures spelt { IfOk result (λ bytes. FileSpells export_file tree.now bytes) }
{
    let bytes = write_bytes(alloc, tree)?;
    Ok(bytes)
}
