//! The list that names the files of the package, and the script that calls its classes. Called by `made`. It knows
//! no class file.

ghost use Rattle.std.specs.Prelude.{◌≡◌, ◌++◌, decimal, OnOk, IfOk};
ghost use Rattle.std.specs.List.{flat_map};
ghost use Rattle.cjc_cmd_make.specs.Package.Classes.{class_name};
ghost use Rattle.cjc_cmd_make.specs.Package.Numbers.{below};
ghost use Rattle.cjc_cmd_make.specs.Package.Texts.{class_line, list_text, call_line, script_text};

use cjc_cmd_convert::bytes::{Bytes, NoMemory, Out};
use itoa::Buffer;
use std::alloc::Global;

/// A number in decimal digits.
fn put_number(out: &mut Out, n: u32) -> Result<(), NoMemory>
    ensures { OnOk result (out.new ≡ out.old ++ decimal n) }
{
    let mut buffer = Buffer::new();
    out.put_slice(buffer.format(n).as_bytes())
}

/// The name of class i.
pub(crate) fn put_class_name(out: &mut Out, i: u32) -> Result<(), NoMemory>
    ensures { OnOk result (out.new ≡ out.old ++ class_name i) }
{
    out.put_slice(b"gen/p/C")?;
    put_number(out, i)
}

/// The line of the list for class i.
fn put_class_line(out: &mut Out, i: u32) -> Result<(), NoMemory>
    ensures { OnOk result (out.new ≡ out.old ++ class_line i) }
{
    out.put_slice(b"class C")?;
    put_number(out, i)?;
    out.put_slice(b".class\n")
}

/// The lines of the list for so many classes.
fn put_class_lines(out: &mut Out, size: u32) -> Result<(), NoMemory>
    ensures { OnOk result (out.new ≡ out.old ++ flat_map class_line (below size)) }
{
    for i in 0..size {
        put_class_line(out, i)?;
    }
    Ok(())
}

/// The list of a package with so many classes.
pub(crate) fn list_text(alloc: Global, size: u32) -> Result<Bytes, NoMemory>
    ensures { IfOk result (λ b. b ≡ list_text size) }
{
    let mut out = Out::new(alloc);
    out.put_slice(b"package gen/p A000000003 1.0\nexport lang.exp\n")?;
    put_class_lines(&mut out, size)?;
    Ok(out.finish())
}

/// The call of f of class i.
fn put_call_line(out: &mut Out, i: u32) -> Result<(), NoMemory>
    ensures { OnOk result (out.new ≡ out.old ++ call_line i) }
{
    out.put_slice(b"call ")?;
    put_class_name(out, i)?;
    out.put_slice(b" f(S)S ")?;
    put_number(out, i)?;
    out.put_slice(b"\n")
}

/// The calls of so many classes.
fn put_call_lines(out: &mut Out, size: u32) -> Result<(), NoMemory>
    ensures { OnOk result (out.new ≡ out.old ++ flat_map call_line (below size)) }
{
    for i in 0..size {
        put_call_line(out, i)?;
    }
    Ok(())
}

/// The script that calls so many classes.
pub(crate) fn script_text(alloc: Global, size: u32) -> Result<Bytes, NoMemory>
    ensures { IfOk result (λ b. b ≡ script_text size) }
{
    let mut out = Out::new(alloc);
    put_call_lines(&mut out, size)?;
    Ok(out.finish())
}
