//! Access flags of classes, fields and methods (Java Virtual Machine Specification, sections 4.1, 4.5 and 4.6), for
//! every crate that asks for one. It knows no class and no member.

ghost use Rattle.std.specs.Prelude.{◌≡◌, ◌∷◌, []};
ghost use Rattle.cjc_bytes.specs.AccessFlags.{has, is_public, is_private, is_protected, is_static, is_final};
ghost use Rattle.cjc_bytes.specs.AccessFlags.{is_interface, is_abstract, acc_public, acc_private, acc_protected};
ghost use Rattle.cjc_bytes.specs.AccessFlags.{acc_static, acc_final, acc_super, acc_synchronized, acc_volatile};
ghost use Rattle.cjc_bytes.specs.AccessFlags.{acc_transient, acc_native, acc_interface, acc_abstract, acc_strict};
ghost use Rattle.cjc_bytes.specs.AccessFlags.{acc_shareable, acc_synthetic, acc_annotation, acc_enum};

/// May be accessed from outside its package.
pub const ACC_PUBLIC: u16 = 0x0001;

/// Of a member that only its class accesses.
pub const ACC_PRIVATE: u16 = 0x0002;

/// Of a member that subclasses may access too.
pub const ACC_PROTECTED: u16 = 0x0004;

/// Of a member that belongs to the class and not to each object.
pub const ACC_STATIC: u16 = 0x0008;

/// No subclass of a class, no later write to a field, no overriding of a method.
pub const ACC_FINAL: u16 = 0x0010;

/// Of a class.
pub const ACC_SUPER: u16 = 0x0020;

/// Of a method.
pub const ACC_SYNCHRONIZED: u16 = 0x0020;

/// Of a field.
pub const ACC_VOLATILE: u16 = 0x0040;

/// Of a field.
pub const ACC_TRANSIENT: u16 = 0x0080;

/// Of a method.
pub const ACC_NATIVE: u16 = 0x0100;

/// An interface, not a class.
pub const ACC_INTERFACE: u16 = 0x0200;

/// A class without instances, or a method without code.
pub const ACC_ABSTRACT: u16 = 0x0400;

/// Of a method.
pub const ACC_STRICT: u16 = 0x0800;

/// Of a class of an export file (Java Card Virtual Machine Specification 2.2.2, section 5.7).
pub const ACC_SHAREABLE: u16 = 0x0800;

/// Made by a compiler, not present in the source.
pub const ACC_SYNTHETIC: u16 = 0x1000;

/// Of an interface that is an annotation type.
pub const ACC_ANNOTATION: u16 = 0x2000;

/// An enum type, or a field that holds an element of one.
pub const ACC_ENUM: u16 = 0x4000;

/// Each flag is the number that the specification gives it.
pub fn access_flags()
    ensures visibility { ACC_PUBLIC ∷ ACC_PRIVATE ∷ ACC_PROTECTED ∷ [] ≡ acc_public ∷ acc_private ∷ acc_protected ∷ [] }
    ensures members { ACC_STATIC ∷ ACC_FINAL ∷ ACC_SYNCHRONIZED ∷ ACC_VOLATILE ∷ ACC_TRANSIENT ∷ ACC_NATIVE ∷ ACC_STRICT
        ∷ [] ≡ acc_static ∷ acc_final ∷ acc_synchronized ∷ acc_volatile ∷ acc_transient ∷ acc_native ∷ acc_strict ∷ [] }
    ensures classes { ACC_SUPER ∷ ACC_INTERFACE ∷ ACC_ABSTRACT ∷ ACC_SHAREABLE ∷ ACC_SYNTHETIC ∷ ACC_ANNOTATION
        ∷ ACC_ENUM ∷ [] ≡ acc_super ∷ acc_interface ∷ acc_abstract ∷ acc_shareable ∷ acc_synthetic ∷ acc_annotation
        ∷ acc_enum ∷ [] }
{}

/// Whether flags have one.
pub fn has(flags: u16, flag: u16) -> bool
    ensures { result ≡ has flags flag }
{
    flags & flag > 0
}

/// Whether ACC_PUBLIC is among the flags.
pub fn is_public(flags: u16) -> bool
    ensures { result ≡ is_public flags }
{
    has(flags, ACC_PUBLIC)
}

/// Whether ACC_PRIVATE is among the flags.
pub fn is_private(flags: u16) -> bool
    ensures { result ≡ is_private flags }
{
    has(flags, ACC_PRIVATE)
}

/// Whether ACC_PROTECTED is among the flags.
pub fn is_protected(flags: u16) -> bool
    ensures { result ≡ is_protected flags }
{
    has(flags, ACC_PROTECTED)
}

/// Whether ACC_STATIC is among the flags.
pub fn is_static(flags: u16) -> bool
    ensures { result ≡ is_static flags }
{
    has(flags, ACC_STATIC)
}

/// Whether ACC_FINAL is among the flags.
pub fn is_final(flags: u16) -> bool
    ensures { result ≡ is_final flags }
{
    has(flags, ACC_FINAL)
}

/// Whether ACC_INTERFACE is among the flags.
pub fn is_interface(flags: u16) -> bool
    ensures { result ≡ is_interface flags }
{
    has(flags, ACC_INTERFACE)
}

/// Whether ACC_ABSTRACT is among the flags.
pub fn is_abstract(flags: u16) -> bool
    ensures { result ≡ is_abstract flags }
{
    has(flags, ACC_ABSTRACT)
}
