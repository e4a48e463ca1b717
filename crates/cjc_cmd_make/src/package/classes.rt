//! The classes that are made, each as the bytes of its file. Called by `made`. It knows neither how their numbers
//! come about nor the list.

ghost use Rattle.std.specs.Prelude.{◌≡◌, ◌++◌, ◌∷◌, [], OnOk, IfOk};
ghost use Rattle.std.specs.List.{flat_map};
ghost use Rattle.cjc_cmd_make.specs.Package.ClassFile.{method_bytes, constant_bytes, two, four, file_bytes};
ghost use Rattle.cjc_cmd_make.specs.Package.Classes.{class_name, superclass_name, constants, constructor, mixes, calls};
ghost use Rattle.cjc_cmd_make.specs.Package.Classes.{class_named, class_with};

use crate::package::class_file::{Code, Entry, Method, put_entries, put_method};
use crate::package::instruction::Instruction;
use crate::package::texts::put_class_name;
use cjc_cmd_convert::bytecode::jvm;
use cjc_cmd_convert::bytes::{ACC_PUBLIC, ACC_STATIC, ACC_SUPER, Bytes, NoMemory, Out};
use std::alloc::Global;

/// The name of class i.
fn class_name(alloc: Global, i: u32) -> Result<Bytes, NoMemory>
    ensures { IfOk result (λ b. b ≡ class_name i) }
{
    let mut out = Out::new(alloc);
    put_class_name(&mut out, i)?;
    Ok(out.finish())
}

/// The name of its superclass.
fn superclass_name(alloc: Global, i: u32) -> Result<Bytes, NoMemory>
    ensures { IfOk result (λ b. b ≡ superclass_name i) }
{
    if i % 4 == 0 {
        Bytes::copy_of(alloc, b"java/lang/Object")
    } else {
        class_name(alloc, i - 1)
    }
}

/// The constant pool.
fn put_constants<'x>(out: &mut Out, name: &'x [u8], superclass: &'x [u8]) -> Result<(), NoMemory>
    ensures { OnOk result (out.new ≡ out.old ++ flat_map constant_bytes (constants name.now superclass.now)) }
{
    put_entries(
        out,
        &[
            Entry::Utf8(name),
            Entry::Class(1),
            Entry::Utf8(superclass),
            Entry::Class(3),
            Entry::Utf8(b"<init>"),
            Entry::Utf8(b"()V"),
            Entry::Utf8(b"Code"),
            Entry::NameAndType(5, 6),
            Entry::Methodref(4, 8),
            Entry::Utf8(b"m"),
            Entry::Utf8(b"(S)S"),
            Entry::Utf8(b"f"),
            Entry::Methodref(2, 8),
            Entry::NameAndType(10, 11),
            Entry::Methodref(2, 14),
        ],
    )
}

/// The constructor.
fn put_constructor(alloc: Global, out: &mut Out) -> Result<(), NoMemory>
    ensures { OnOk result (out.new ≡ out.old ++ method_bytes constructor) }
{
    let code = Code {
        name: 7,
        max_stack: 1,
        max_locals: 1,
        instructions: &[
            Instruction::Alone(jvm::ALOAD_0),
            Instruction::Followed(jvm::INVOKESPECIAL, 9),
            Instruction::Alone(jvm::RETURN),
        ],
    };
    let method = Method {
        flags: ACC_PUBLIC,
        name: 5,
        desc: 6,
        code,
    };
    put_method(alloc, out, &method)
}

/// m, which adds a number and combines with another.
fn put_mixes(alloc: Global, out: &mut Out, addend: u16, mask: u16) -> Result<(), NoMemory>
    ensures { OnOk result (out.new ≡ out.old ++ method_bytes (mixes addend mask)) }
{
    let code = Code {
        name: 7,
        max_stack: 2,
        max_locals: 2,
        instructions: &[
            Instruction::Alone(jvm::ILOAD_1),
            Instruction::Followed(jvm::SIPUSH, addend),
            Instruction::Alone(jvm::IADD),
            Instruction::Alone(jvm::I2S),
            Instruction::Followed(jvm::SIPUSH, mask),
            Instruction::Alone(jvm::IXOR),
            Instruction::Alone(jvm::I2S),
            Instruction::Alone(jvm::IRETURN),
        ],
    };
    let method = Method {
        flags: ACC_PUBLIC,
        name: 10,
        desc: 11,
        code,
    };
    put_method(alloc, out, &method)
}

/// f, which calls m of a new object.
fn put_calls(alloc: Global, out: &mut Out) -> Result<(), NoMemory>
    ensures { OnOk result (out.new ≡ out.old ++ method_bytes calls) }
{
    let code = Code {
        name: 7,
        max_stack: 2,
        max_locals: 1,
        instructions: &[
            Instruction::Followed(jvm::NEW, 2),
            Instruction::Alone(jvm::DUP),
            Instruction::Followed(jvm::INVOKESPECIAL, 13),
            Instruction::Alone(jvm::ILOAD_0),
            Instruction::Followed(jvm::INVOKEVIRTUAL, 15),
            Instruction::Alone(jvm::IRETURN),
        ],
    };
    let method = Method {
        flags: ACC_PUBLIC + ACC_STATIC,
        name: 12,
        desc: 11,
        code,
    };
    put_method(alloc, out, &method)
}

/// What stands before the constant pool, which has 15 entries.
fn put_front(out: &mut Out) -> Result<(), NoMemory>
    ensures { OnOk result (out.new ≡ out.old ++ (four 0xCAFEBABE ++ (two 0 ++ (two 52 ++ two 16)))) }
{
    out.put4(0xCAFEBABE)?;
    out.put2(0)?;
    out.put2(52)?;
    out.put2(16)
}

/// What stands behind the constant pool: flags, the class and its superclass.
fn put_header(out: &mut Out) -> Result<(), NoMemory>
    ensures { OnOk result (out.new ≡ out.old ++ (two 33 ++ (two 2 ++ two 4))) }
{
    out.put2(ACC_PUBLIC + ACC_SUPER)?;
    out.put2(2)?;
    out.put2(4)
}

/// How many interfaces, fields and methods.
fn put_counts(out: &mut Out) -> Result<(), NoMemory>
    ensures { OnOk result (out.new ≡ out.old ++ (two 0 ++ (two 0 ++ two 3))) }
{
    out.put2(0)?;
    out.put2(0)?;
    out.put2(3)
}

/// Up to the methods of a class of these names.
fn put_top(out: &mut Out, name: &[u8], superclass: &[u8]) -> Result<(), NoMemory>
    ensures { OnOk result (out.new ≡ out.old
        ++ (four 0xCAFEBABE
        ++ (two 0 ++ (two 52 ++ (two 16 ++ (flat_map constant_bytes (constants name.now superclass.now)
        ++ (two 33 ++ (two 2 ++ (two 4 ++ (two 0 ++ (two 0 ++ two 3))))))))))) }
{
    put_front(out)?;
    put_constants(out, name, superclass)?;
    put_header(out)?;
    put_counts(out)
}

/// The methods of a class, of which m uses these numbers.
fn put_methods(alloc: Global, out: &mut Out, addend: u16, mask: u16) -> Result<(), NoMemory>
    ensures { OnOk result (out.new ≡ out.old ++ flat_map method_bytes (constructor ∷ mixes addend mask ∷ calls ∷ [])) }
{
    put_constructor(alloc, out)?;
    put_mixes(alloc, out, addend, mask)?;
    put_calls(alloc, out)
}

/// The file of a class of these names, whose m uses these numbers.
fn put_class_file(
    alloc: Global,
    out: &mut Out,
    name: &[u8],
    superclass: &[u8],
    addend: u16,
    mask: u16,
) -> Result<(), NoMemory>
    ensures { OnOk result (out.new ≡ out.old ++ file_bytes (class_named name.now superclass.now addend mask)) }
{
    put_top(out, name, superclass)?;
    put_methods(alloc, out, addend, mask)?;
    out.put2(0)
}

/// The file of class i, whose m uses these numbers.
pub(crate) fn class_file(alloc: Global, i: u32, addend: u16, mask: u16) -> Result<Bytes, NoMemory>
    ensures { IfOk result (λ b. b ≡ file_bytes (class_with i addend mask)) }
{
    let name = class_name(alloc, i)?;
    let superclass = superclass_name(alloc, i)?;
    let mut out = Out::new(alloc);
    put_class_file(
        alloc,
        &mut out,
        name.items(),
        superclass.items(),
        addend,
        mask,
    )?;
    Ok(out.finish())
}
