//! The flags of Descriptor (Java Card Virtual Machine Specification 2.2.2, sections 6.13.1 to 6.13.3) by those
//! of class files. Called by `fields`, `methods` and `classes`.

ghost use Rattle.std.specs.Prelude.{◌≡◌, ◌+◌, ◌≤◌, codes, if◌then◌else◌};
ghost use Rattle.cjc_bytes.specs.AccessFlags.{acc_abstract};
ghost use Rattle.cjc_tokens.specs.Members.{is_constructor};
ghost use Rattle.cjc_components.specs.Descriptor.{class_flags, field_flags, flag_where};

use cjc_bytes::{
    ACC_ABSTRACT, ACC_FINAL, ACC_INTERFACE, ACC_PRIVATE, ACC_PROTECTED, ACC_PUBLIC, ACC_STATIC, has,
};

const CONSTRUCTOR: &[u8] = b"<init>";

/// A flag, where some flags have another.
fn flag_where(flags: u16, flag: u16, written: u8) -> u8
    ensures written { result ≡ flag_where flags flag written }
    ensures within { result ≤ written }
{
    if has(flags, flag) { written } else { 0 }
}

/// Those of a class.
pub fn class_flags(flags: u16) -> u8
    ensures { result ≡ class_flags flags }
{
    flag_where(flags, ACC_PUBLIC, 0x01)
        + flag_where(flags, ACC_FINAL, 0x10)
        + flag_where(flags, ACC_INTERFACE, 0x40)
        + flag_where(flags, ACC_ABSTRACT, 0x80)
}

/// Those of a field.
pub fn field_flags(flags: u16) -> u8
    ensures written { result ≡ field_flags flags }
    ensures within { result ≤ 0x1F }
{
    flag_where(flags, ACC_PUBLIC, 0x01)
        + flag_where(flags, ACC_PRIVATE, 0x02)
        + flag_where(flags, ACC_PROTECTED, 0x04)
        + flag_where(flags, ACC_STATIC, 0x08)
        + flag_where(flags, ACC_FINAL, 0x10)
}

/// The flag of a constructor, where the name is one's.
fn constructor_flag(name: &[u8]) -> u8
    ensures written { result ≡ (if is_constructor name.now then 0x80 else 0) }
    ensures within { result ≤ 0x80 }
{
    if name == CONSTRUCTOR { 0x80 } else { 0 }
}

/// Those of a method.
pub fn method_flags(flags: u16, name: &[u8]) -> u8
    ensures { result ≡ field_flags flags + flag_where flags acc_abstract 0x40 + (if is_constructor name.now then 0x80
        else 0) }
{
    field_flags(flags) + flag_where(flags, ACC_ABSTRACT, 0x40) + constructor_flag(name)
}
