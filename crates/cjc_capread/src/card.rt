//! Opcodes of the card by their mnemonics (Java Card Virtual Machine Specification 2.2.2, chapter 7), for every crate
//! that asks for one. Knows no operand; what follows each opcode is in opcode.rt.

/// Pushes null.
pub const ACONST_NULL: u8 = 0x01;

/// Pushes the short -1.
pub const SCONST_M1: u8 = 0x02;

/// Pushes the short 0; those of 1 to 5 follow.
pub const SCONST_0: u8 = 0x03;

/// Pushes the int -1.
pub const ICONST_M1: u8 = 0x09;

/// Pushes the int 0; those of 1 to 5 follow.
pub const ICONST_0: u8 = 0x0A;

/// Pushes a byte as a short.
pub const BSPUSH: u8 = 0x10;

/// Pushes a short.
pub const SSPUSH: u8 = 0x11;

/// Pushes a byte as an int.
pub const BIPUSH: u8 = 0x12;

/// Pushes a short as an int.
pub const SIPUSH: u8 = 0x13;

/// Pushes an int.
pub const IIPUSH: u8 = 0x14;

/// Pushes the reference of a local.
pub const ALOAD: u8 = 0x15;

/// Pushes the short of a local.
pub const SLOAD: u8 = 0x16;

/// Pushes the int of a local.
pub const ILOAD: u8 = 0x17;

/// Pushes the reference of local 0; those of locals 1 to 3 follow.
pub const ALOAD_0: u8 = 0x18;

/// Pushes the short of local 0; those of locals 1 to 3 follow.
pub const SLOAD_0: u8 = 0x1C;

/// Pushes the int of local 0; those of locals 1 to 3 follow.
pub const ILOAD_0: u8 = 0x20;

/// Loads a reference from an array.
pub const AALOAD: u8 = 0x24;

/// Loads a byte or a boolean from an array.
pub const BALOAD: u8 = 0x25;

/// Loads a short from an array.
pub const SALOAD: u8 = 0x26;

/// Loads an int from an array.
pub const IALOAD: u8 = 0x27;

/// Stores a reference into a local.
pub const ASTORE: u8 = 0x28;

/// Stores a short into a local.
pub const SSTORE: u8 = 0x29;

/// Stores an int into a local.
pub const ISTORE: u8 = 0x2A;

/// Stores a reference into local 0; those of locals 1 to 3 follow.
pub const ASTORE_0: u8 = 0x2B;

/// Stores a short into local 0; those of locals 1 to 3 follow.
pub const SSTORE_0: u8 = 0x2F;

/// Stores an int into local 0; those of locals 1 to 3 follow.
pub const ISTORE_0: u8 = 0x33;

/// Stores a reference into an array.
pub const AASTORE: u8 = 0x37;

/// Stores a byte or a boolean into an array.
pub const BASTORE: u8 = 0x38;

/// Stores a short into an array.
pub const SASTORE: u8 = 0x39;

/// Stores an int into an array.
pub const IASTORE: u8 = 0x3A;

/// Takes off the top word.
pub const POP: u8 = 0x3B;

/// Takes off the two words on top.
pub const POP2: u8 = 0x3C;

/// Copies the top word.
pub const DUP: u8 = 0x3D;

/// Copies the two words on top.
pub const DUP2: u8 = 0x3E;

/// Copies up to four words on top below others.
pub const DUP_X: u8 = 0x3F;

/// Exchanges words on top with those below them.
pub const SWAP_X: u8 = 0x40;

/// Adds shorts.
pub const SADD: u8 = 0x41;

/// Subtracts shorts.
pub const SSUB: u8 = 0x43;

/// Multiplies shorts.
pub const SMUL: u8 = 0x45;

/// Divides shorts.
pub const SDIV: u8 = 0x47;

/// The remainder of a division of shorts.
pub const SREM: u8 = 0x49;

/// Turns the sign of a short.
pub const SNEG: u8 = 0x4B;

/// Shifts a short to the left.
pub const SSHL: u8 = 0x4D;

/// Shifts a short to the right, with the sign.
pub const SSHR: u8 = 0x4F;

/// Shifts a short to the right, without the sign.
pub const SUSHR: u8 = 0x51;

/// The bits of both shorts.
pub const SAND: u8 = 0x53;

/// The bits of either short.
pub const SOR: u8 = 0x55;

/// The bits of one of two shorts.
pub const SXOR: u8 = 0x57;

/// Adds a byte to the short of a local.
pub const SINC: u8 = 0x59;

/// Adds a byte to the int of a local.
pub const IINC: u8 = 0x5A;

/// Cuts a short to a byte.
pub const S2B: u8 = 0x5B;

/// Widens a short to an int.
pub const S2I: u8 = 0x5C;

/// Cuts an int to a byte, as a short.
pub const I2B: u8 = 0x5D;

/// Cuts an int to a short.
pub const I2S: u8 = 0x5E;

/// Compares two ints.
pub const ICMP: u8 = 0x5F;

/// Jumps where the short is 0; the first of the jumps of one byte.
pub const IFEQ: u8 = 0x60;

/// Jumps where the short is not 0.
pub const IFNE: u8 = 0x61;

/// Jumps where the short is below 0.
pub const IFLT: u8 = 0x62;

/// Jumps where the short is not below 0.
pub const IFGE: u8 = 0x63;

/// Jumps where the short is above 0.
pub const IFGT: u8 = 0x64;

/// Jumps where the short is not above 0.
pub const IFLE: u8 = 0x65;

/// Jumps where the reference is null.
pub const IFNULL: u8 = 0x66;

/// Jumps where the reference is not null.
pub const IFNONNULL: u8 = 0x67;

/// Jumps where two references are the same.
pub const IF_ACMPEQ: u8 = 0x68;

/// Jumps where two references are not the same.
pub const IF_ACMPNE: u8 = 0x69;

/// Jumps where two shorts are equal.
pub const IF_SCMPEQ: u8 = 0x6A;

/// Jumps where two shorts differ.
pub const IF_SCMPNE: u8 = 0x6B;

/// Jumps where the first short is below the second.
pub const IF_SCMPLT: u8 = 0x6C;

/// Jumps where the first short is not below the second.
pub const IF_SCMPGE: u8 = 0x6D;

/// Jumps where the first short is above the second.
pub const IF_SCMPGT: u8 = 0x6E;

/// Jumps where the first short is not above the second.
pub const IF_SCMPLE: u8 = 0x6F;

/// Jumps.
pub const GOTO: u8 = 0x70;

/// Jumps into a subroutine.
pub const JSR: u8 = 0x71;

/// Jumps by a table of shorts.
pub const STABLESWITCH: u8 = 0x73;

/// Jumps by a table of ints.
pub const ITABLESWITCH: u8 = 0x74;

/// Jumps by pairs with shorts.
pub const SLOOKUPSWITCH: u8 = 0x75;

/// Jumps by pairs with ints.
pub const ILOOKUPSWITCH: u8 = 0x76;

/// Returns a reference.
pub const ARETURN: u8 = 0x77;

/// Returns a short.
pub const SRETURN: u8 = 0x78;

/// Returns an int.
pub const IRETURN: u8 = 0x79;

/// Returns nothing.
pub const RETURN: u8 = 0x7A;

/// Pushes a static reference; those of bytes, shorts and ints follow.
pub const GETSTATIC_A: u8 = 0x7B;

/// Stores a static reference; those of bytes, shorts and ints follow.
pub const PUTSTATIC_A: u8 = 0x7F;

/// Stores a static int; the last of the accesses of static fields.
pub const PUTSTATIC_I: u8 = 0x82;

/// Pushes an object's reference; those of bytes, shorts and ints follow.
pub const GETFIELD_A: u8 = 0x83;

/// Stores an object's reference; those of bytes, shorts and ints follow.
pub const PUTFIELD_A: u8 = 0x87;

/// Stores an object's int; the last of the accesses of fields by an index of one byte.
pub const PUTFIELD_I: u8 = 0x8A;

/// Calls a method of the object's own class.
pub const INVOKEVIRTUAL: u8 = 0x8B;

/// Calls a constructor, a private method or a method of the superclass.
pub const INVOKESPECIAL: u8 = 0x8C;

/// Calls a static method.
pub const INVOKESTATIC: u8 = 0x8D;

/// Calls a method of an interface.
pub const INVOKEINTERFACE: u8 = 0x8E;

/// Makes an object.
pub const NEW: u8 = 0x8F;

/// Makes an array of numbers.
pub const NEWARRAY: u8 = 0x90;

/// Makes an array of references.
pub const ANEWARRAY: u8 = 0x91;

/// Pushes the length of an array.
pub const ARRAYLENGTH: u8 = 0x92;

/// Throws.
pub const ATHROW: u8 = 0x93;

/// Throws where the reference is not of a type.
pub const CHECKCAST: u8 = 0x94;

/// Pushes whether the reference is of a type.
pub const INSTANCEOF: u8 = 0x95;

/// Adds a short to the short of a local.
pub const SINC_W: u8 = 0x96;

/// Adds a short to the int of a local.
pub const IINC_W: u8 = 0x97;

/// Jumps where the short is 0; the first of the jumps of two bytes.
pub const IFEQ_W: u8 = 0x98;

/// Jumps; the last of the jumps of two bytes.
pub const GOTO_W: u8 = 0xA8;

/// Pushes an object's reference, by an index of two bytes; those of bytes, shorts and ints follow.
pub const GETFIELD_A_W: u8 = 0xA9;

/// Stores an object's reference, by an index of two bytes; those of bytes, shorts and ints follow.
pub const PUTFIELD_A_W: u8 = 0xB1;

/// Stores an int of this; the last of the accesses of fields.
pub const PUTFIELD_I_THIS: u8 = 0xB8;

/// For a machine's own use.
pub const IMPDEP1: u8 = 0xFE;

/// For a machine's own use; the last opcode.
pub const IMPDEP2: u8 = 0xFF;
