//! Access flags (Java Virtual Machine Specification, sections 4.1, 4.5 and 4.6).

ghost use Rattle.std.specs.Prelude.{◌≡◌};
ghost use Rattle.cjc_export.specs.Words.{has, is_static, is_final, is_interface};

fn has(flags: u16, flag: u16) -> bool
    ensures { result ≡ has flags flag }
{
    flags & flag > 0
}

pub(crate) fn is_static(flags: u16) -> bool
    ensures { result ≡ is_static flags }
{
    has(flags, 0x0008)
}

pub(crate) fn is_final(flags: u16) -> bool
    ensures { result ≡ is_final flags }
{
    has(flags, 0x0010)
}

pub(crate) fn is_interface(flags: u16) -> bool
    ensures { result ≡ is_interface flags }
{
    has(flags, 0x0200)
}
