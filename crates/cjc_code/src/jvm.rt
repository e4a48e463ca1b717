//! Opcodes of the Java Virtual Machine by their mnemonics (Java Virtual Machine Specification, 6.5), for every crate
//! that asks for one. Knows no operand; what follows each opcode is in table.rt.

/// Pushes a number of two bytes.
pub const SIPUSH: u8 = 0x11;

/// Pushes the int of local 0.
pub const ILOAD_0: u8 = 0x1A;

/// Pushes the int of local 1.
pub const ILOAD_1: u8 = 0x1B;

/// Pushes the reference of local 0.
pub const ALOAD_0: u8 = 0x2A;

/// Loads an int from an array.
pub const IALOAD: u8 = 0x2E;

/// Loads a reference from an array.
pub const AALOAD: u8 = 0x32;

/// Loads a byte or a boolean from an array.
pub const BALOAD: u8 = 0x33;

/// Loads a short from an array.
pub const SALOAD: u8 = 0x35;

/// Stores an int into an array.
pub const IASTORE: u8 = 0x4F;

/// Stores a reference into an array.
pub const AASTORE: u8 = 0x53;

/// Stores a byte or a boolean into an array.
pub const BASTORE: u8 = 0x54;

/// Stores a short into an array.
pub const SASTORE: u8 = 0x56;

/// Takes off the top value.
pub const POP: u8 = 0x57;

/// Takes off the two values on top.
pub const POP2: u8 = 0x58;

/// Copies the top value.
pub const DUP: u8 = 0x59;

/// Copies the top value below the second.
pub const DUP_X1: u8 = 0x5A;

/// Copies the top value below the third.
pub const DUP_X2: u8 = 0x5B;

/// Copies the two values on top.
pub const DUP2: u8 = 0x5C;

/// Copies the two values on top below the third.
pub const DUP2_X1: u8 = 0x5D;

/// Copies the two values on top below the fourth.
pub const DUP2_X2: u8 = 0x5E;

/// Exchanges the two values on top.
pub const SWAP: u8 = 0x5F;

/// Adds.
pub const IADD: u8 = 0x60;

/// Subtracts.
pub const ISUB: u8 = 0x64;

/// Multiplies.
pub const IMUL: u8 = 0x68;

/// Divides.
pub const IDIV: u8 = 0x6C;

/// The remainder of a division.
pub const IREM: u8 = 0x70;

/// Turns the sign.
pub const INEG: u8 = 0x74;

/// Shifts to the left.
pub const ISHL: u8 = 0x78;

/// Shifts to the right, with the sign.
pub const ISHR: u8 = 0x7A;

/// Shifts to the right, without the sign.
pub const IUSHR: u8 = 0x7C;

/// The bits of both.
pub const IAND: u8 = 0x7E;

/// The bits of either.
pub const IOR: u8 = 0x80;

/// The bits of one of two.
pub const IXOR: u8 = 0x82;

/// Cuts an int to a byte.
pub const I2B: u8 = 0x91;

/// Cuts an int to a short.
pub const I2S: u8 = 0x93;

/// Jumps where the number is 0; the first of the tests of one number.
pub const IFEQ: u8 = 0x99;

/// Jumps where the number is not 0.
pub const IFNE: u8 = 0x9A;

/// Jumps where the number is below 0.
pub const IFLT: u8 = 0x9B;

/// Jumps where the number is not below 0.
pub const IFGE: u8 = 0x9C;

/// Jumps where the number is above 0.
pub const IFGT: u8 = 0x9D;

/// Jumps where the number is not above 0; the last of the tests of one number.
pub const IFLE: u8 = 0x9E;

/// Jumps where two numbers are equal; the first of the comparisons of numbers.
pub const IF_ICMPEQ: u8 = 0x9F;

/// Jumps where two numbers differ.
pub const IF_ICMPNE: u8 = 0xA0;

/// Jumps where the first number is below the second.
pub const IF_ICMPLT: u8 = 0xA1;

/// Jumps where the first number is not below the second.
pub const IF_ICMPGE: u8 = 0xA2;

/// Jumps where the first number is above the second.
pub const IF_ICMPGT: u8 = 0xA3;

/// Jumps where the first number is not above the second; the last of the comparisons of numbers.
pub const IF_ICMPLE: u8 = 0xA4;

/// Jumps where two references are the same.
pub const IF_ACMPEQ: u8 = 0xA5;

/// Jumps where two references are not the same.
pub const IF_ACMPNE: u8 = 0xA6;

/// Returns an int.
pub const IRETURN: u8 = 0xAC;

/// Returns a reference.
pub const ARETURN: u8 = 0xB0;

/// Returns nothing.
pub const RETURN: u8 = 0xB1;

/// Calls a method of the object's own class.
pub const INVOKEVIRTUAL: u8 = 0xB6;

/// Calls a constructor, a private method or a method of the superclass.
pub const INVOKESPECIAL: u8 = 0xB7;

/// Calls a static method.
pub const INVOKESTATIC: u8 = 0xB8;

/// Calls a method of an interface.
pub const INVOKEINTERFACE: u8 = 0xB9;

/// Makes an object.
pub const NEW: u8 = 0xBB;

/// Jumps where the reference is null.
pub const IFNULL: u8 = 0xC6;

/// Jumps where the reference is not null.
pub const IFNONNULL: u8 = 0xC7;
