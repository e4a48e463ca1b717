//! The components of a package of the form, as trees.

ghost use Rattle.std.specs.Prelude.{◌≡◌, ◌+◌, ◌-◌, ◌≤◌, ◌∷◌, ◌++◌, [], true, length, replicate, IfOk};
ghost use Rattle.std.specs.List.{list_all};
ghost use Rattle.cjc_first.specs.FirstForm.{ops_of};
ghost use Rattle.cjc_first.specs.FirstForm.{line_of};
ghost use Rattle.cjc_first.specs.Tests.{has_byte_local, HasSmallFrame, IsSmallImport};
ghost use Rattle.cjc_first.specs.Selected.{selected_code, header as header_lem};
ghost use Rattle.cjc_first.specs.Converted.{tree_for as tree_for_lem, header_part, sizes as sizes_lem, directory_part, import_part, pool_part, class_part, static_part, location_part, export_part, descriptor_part};
ghost use Rattle.cjc_first.specs.Above.{free_token};

use crate::above::free_token;
use crate::form::Form;
use crate::selected::{put_code, put_header};
use cjc_bytes::{Bytes, NoMemory, Out, Row};
use cjc_capread::{
    CapTree, ClassDescriptor, ClassEntry, ClassInfo, ClassRef, ConstantPool, Descriptor, Directory,
    Export, ExportedClass, Header, Import, ImportedPackage, Method, MethodDescriptor,
    ReferenceLocation, StaticField, TypeDescriptor,
};
use cjc_classfile::Code;
use cjc_code::JInsn;
use cjc_export::{ExportClass, ExportTree};
use cjc_list::List;
use std::alloc::Global;

fn code_bytes(alloc: Global, insns: &[JInsn]) -> Result<Bytes, NoMemory>
    requires { list_all has_byte_local (ops_of insns.now) ≡ true }
    ensures { IfOk result (λ bytes. bytes ≡ selected_code (ops_of insns.now)) }
{
    let mut out = Out::new(alloc);
    put_code(insns, &mut out)?;
    Ok(out.finish())
}

// The bytes of a method: its header and its code.
fn method_bytes(
    alloc: Global,
    params: u8,
    code: &Code<'_>,
    written: &[u8],
) -> Result<Bytes, NoMemory>
    requires { HasSmallFrame params code.now }
    ensures { IfOk result (λ bytes. bytes ≡ header_lem code.now.max_stack params (code.now.max_locals - params) ++ written.now) }
{
    let mut out = Out::new(alloc);
    let max_locals = code.max_locals - u16::from(params);
    put_header(code.max_stack as u8, params, max_locals as u8, &mut out)?;
    out.put_slice(written)?;
    Ok(out.finish())
}

fn one<T: Drop>(alloc: Global, item: T) -> Result<Row<T>, NoMemory>
    ensures { IfOk result (λ row. row ≡ item ∷ []) }
{
    let mut row = Row::new(alloc);
    row.push(item)?;
    Ok(row)
}

// The sizes of the components, tags 1 to 12.
fn sizes(
    alloc: Global,
    name: &[u8],
    aid: &[u8],
    lang_aid: &[u8],
    params: u8,
    methods: &[u8],
) -> Result<Row<u64>, NoMemory>
    requires name { length name.now ≤ 255 }
    requires aid { length aid.now ≤ 255 }
    requires lang_aid { length lang_aid.now ≤ 255 }
    ensures { IfOk result (λ row. row ≡ sizes_lem (record { name = name.now; aid = aid.now; major = 0; minor = 0 }) lang_aid.now params (length methods.now)) }
{
    let header = 11 + aid.len() as u64 + name.len() as u64;
    let import = 4 + lang_aid.len() as u64;
    let method = 1 + methods.len() as u64;
    let types = (u64::from(params) + 2) / 2;
    let all = vec![in alloc;
        header,
        33,
        0,
        import,
        2,
        12,
        method,
        10,
        4,
        7,
        25 + types,
        0,
    ]?;
    Ok(Row::of(all))
}

fn import(alloc: Global, lang: &ExportTree) -> Result<Import, NoMemory>
    ensures { IfOk result (λ part. part ≡ import_part lang.now) }
{
    let package = ImportedPackage {
        minor: lang.minor,
        major: lang.major,
        aid: Bytes::copy_of(alloc, lang.aid.items())?,
    };
    Ok(Import {
        packages: one(alloc, package)?,
    })
}

// One class, a subclass of this class of the first import.
fn class(alloc: Global, root: &ExportClass) -> Result<ClassInfo, NoMemory>
    requires { free_token root.now.methods ≤ 255 }
    ensures { IfOk result (λ part. part ≡ class_part root.now) }
{
    let class = ClassEntry {
        flags: 0,
        superclass: ClassRef::Outside {
            package: 0,
            class: root.token,
        },
        declared_instance_size: 0,
        first_reference_token: 0xFF,
        reference_count: 0,
        public_base: free_token(root.methods.items()) as u8,
        package_base: 0,
        public_methods: Row::new(alloc),
        package_methods: Row::new(alloc),
        interfaces: Row::new(alloc),
    };
    Ok(ClassInfo {
        interfaces: Row::new(alloc),
        classes: one(alloc, class)?,
    })
}

fn statics(alloc: Global) -> StaticField
    ensures { result ≡ static_part }
{
    StaticField {
        image_size: 0,
        reference_count: 0,
        array_inits: Row::new(alloc),
        default_value_count: 0,
        values: Row::new(alloc),
    }
}

fn locations(alloc: Global) -> ReferenceLocation
    ensures { result ≡ location_part }
{
    ReferenceLocation {
        one_byte: Row::new(alloc),
        two_byte: Row::new(alloc),
    }
}

fn export(alloc: Global) -> Result<Export, NoMemory>
    ensures { IfOk result (λ part. part ≡ export_part) }
{
    let class = ExportedClass {
        class_offset: 2,
        fields: Row::new(alloc),
        methods: one(alloc, 1)?,
    };
    Ok(Export {
        classes: one(alloc, class)?,
    })
}

// The type of the method: a short for each parameter and one for the result.
fn method_type(alloc: Global, params: u8) -> Result<TypeDescriptor, NoMemory>
    requires { params ≤ 15 }
    ensures { IfOk result (λ type_. type_ ≡ record { nibbles = replicate (params + 1) 4 }) }
{
    let nibbles = vec![in alloc; 4u8; params as usize + 1]?;
    Ok(TypeDescriptor {
        nibbles: Row::of(nibbles),
    })
}

fn descriptor(alloc: Global, params: u8, code_bytes: u64) -> Result<Descriptor, NoMemory>
    requires { params ≤ 15 }
    ensures { IfOk result (λ part. part ≡ descriptor_part params code_bytes) }
{
    let method = MethodDescriptor {
        token: 0,
        flags: 0x09,
        offset: 1,
        type_offset: 2,
        bytecode_count: code_bytes,
        handler_count: 0,
        first_handler: 0,
    };
    let class = ClassDescriptor {
        token: 0,
        flags: 0x01,
        this_class: ClassRef::Inside(2),
        interfaces: Row::new(alloc),
        fields: Row::new(alloc),
        methods: one(alloc, method)?,
    };
    Ok(Descriptor {
        classes: one(alloc, class)?,
        pool_types: Row::new(alloc),
        types: one(alloc, method_type(alloc, params)?)?,
    })
}

/// The components of a package of this name, AID and version with one class, whose one method has this code, and
/// the parameters and instructions of the form.
#[tactic(auto, unfolding(crate::specs::Converted::tree_for))]
pub fn tree_for(
    alloc: Global,
    list: &List,
    form: &Form<'_, '_>,
    code: &Code<'_>,
) -> Result<CapTree, NoMemory>
    requires name { length list.now.«package» ≤ 255 }
    requires aid { length list.now.aid ≤ 255 }
    requires import { IsSmallImport form.now.lang.now form.now.root.now }
    requires params { form.now.params ≤ 15 }
    requires frame { HasSmallFrame form.now.params code.now }
    requires locals { list_all has_byte_local (ops_of form.now.insns.now) ≡ true }
    ensures { IfOk result (λ tree. tree ≡ tree_for_lem (line_of list.now) form.now.lang.now form.now.root.now form.now.params code.now (ops_of form.now.insns.now)) }
{
    let params = form.params;
    let written = code_bytes(alloc, form.insns)?;
    let bytes = method_bytes(alloc, params, code, written.items())?;
    let directory = directory(alloc, list, form.lang, params, bytes.items())?;
    let descriptor = descriptor(alloc, params, written.items().len() as u64)?;
    Ok(CapTree {
        header: header(alloc, list)?,
        directory,
        applet: None,
        import: Some(import(alloc, form.lang)?),
        pool: Some(ConstantPool {
            entries: Row::new(alloc),
        }),
        class: Some(class(alloc, form.root)?),
        method: Some(Method {
            handlers: Row::new(alloc),
            methods: bytes,
        }),
        statics: Some(statics(alloc)),
        locations: Some(locations(alloc)),
        export: Some(export(alloc)?),
        descriptor: Some(descriptor),
    })
}

fn header(alloc: Global, list: &List) -> Result<Header, NoMemory>
    ensures { IfOk result (λ part. part ≡ header_part (line_of list.now)) }
{
    Ok(Header {
        flags: 2,
        minor: list.minor,
        major: list.major,
        aid: Bytes::copy_of(alloc, list.aid.items())?,
        name: Bytes::copy_of(alloc, list.package.items())?,
    })
}

fn directory(
    alloc: Global,
    list: &List,
    lang: &ExportTree,
    params: u8,
    methods: &[u8],
) -> Result<Directory, NoMemory>
    requires name { length list.now.«package» ≤ 255 }
    requires aid { length list.now.aid ≤ 255 }
    requires lang_aid { length lang.now.aid ≤ 255 }
    ensures { IfOk result (λ part. part ≡ directory_part (line_of list.now) lang.now.aid params (length methods.now)) }
{
    Ok(Directory {
        component_sizes: sizes(
            alloc,
            list.package.items(),
            list.aid.items(),
            lang.aid.items(),
            params,
            methods,
        )?,
        image_size: 0,
        array_init_count: 0,
        array_init_size: 0,
        import_count: 1,
        applet_count: 0,
    })
}
