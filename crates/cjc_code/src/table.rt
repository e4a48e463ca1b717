//! The opcodes of the Java Virtual Machine (Java Virtual Machine Specification, chapter 6): what follows each,
//! and what its instruction is.

ghost use Rattle.std.specs.Prelude.{◌≡◌};
ghost use Rattle.cjc_code.specs.Table.{row, heads, wide};
ghost use Rattle.cjc_code.specs.Instruction.{is_unknown, opcode_at, wide_opcode_at};

/// A number behind an opcode, with its bytes.
#[derive(Clone, Copy)]
pub(crate) enum Operand {
    Unsigned1,
    Signed1,
    Unsigned2,
    Signed2,
    Signed4,
}

/// What follows an opcode.
#[derive(Clone, Copy)]
pub(crate) enum Operands {
    Nothing,
    /// Numbers: `U` without sign and `S` with one, each with its bytes.
    U1,
    S1,
    U2,
    S2,
    S4,
    U1S1,
    U2S2,
    U2U1,
    U2U1U1,
    /// The padding, the default, the low and the high value, and an offset for each value.
    Table,
    /// The padding, the default, the number of pairs, and the pairs of a value and an offset.
    Lookup,
}

/// What an instruction is. Those that begin with `Unsupported` are of the Java Virtual Machine and are not
/// converted. A `bool` is whether a reference is loaded or stored, or whether a field is put; a number is a
/// constant or the number of a local.
#[derive(Clone, Copy)]
pub(crate) enum Family {
    /// No opcode.
    Unknown,
    /// The prefix.
    Wide,
    Nop,
    Null,
    Small(i8),
    Push,
    Constant,
    Load(bool),
    LoadAt(bool, u8),
    Store(bool),
    StoreAt(bool, u8),
    ArrayLoad,
    ArrayStore,
    Stack,
    Arith,
    Inc,
    Narrow,
    If,
    Goto,
    TableSwitch,
    LookupSwitch,
    Return,
    Static(bool),
    Field(bool),
    CallVirtual,
    /// invokespecial and invokestatic.
    CallDirect,
    CallInterface,
    New,
    NewArray,
    ANewArray,
    ArrayLength,
    Throw,
    CheckCast,
    InstanceOf,
    /// With no operand, or none that is tested.
    Unsupported,
    UnsupportedConstant,
    UnsupportedLocal,
    UnsupportedLocalAt(u8),
    UnsupportedJump,
    UnsupportedReturn,
    UnsupportedClass,
    Ret,
}

/// An opcode, what follows it and what its instruction is.
#[derive(Clone, Copy)]
pub(crate) struct Opcode {
    pub(crate) number: u8,
    pub(crate) operands: Operands,
    pub(crate) family: Family,
}

use Family::{
    ANewArray, Arith, ArrayLength, ArrayLoad, ArrayStore, CallDirect, CallInterface, CallVirtual,
    CheckCast, Constant, Field, Goto, If, Inc, InstanceOf, Load, LoadAt, LookupSwitch, Narrow, New,
    NewArray, Nop, Null, Push, Ret, Return, Small, Stack, Static, Store, StoreAt, TableSwitch,
    Throw, Unknown, Unsupported, UnsupportedClass, UnsupportedConstant, UnsupportedJump,
    UnsupportedLocal, UnsupportedLocalAt, UnsupportedReturn, Wide,
};
use Operands::{Lookup, Nothing, S1, S2, S4, Table, U1, U1S1, U2, U2S2, U2U1, U2U1U1};

/// The opcodes from 00 to FF.
pub(crate) static TABLE: [(Operands, Family); 256] = [
    (Nothing, Nop), // 00 nop
    (Nothing, Null), // 01 aconst_null
    (Nothing, Small(-1)), // 02 iconst_m1
    (Nothing, Small(0)), // 03 iconst_0
    (Nothing, Small(1)), // 04 iconst_1
    (Nothing, Small(2)), // 05 iconst_2
    (Nothing, Small(3)), // 06 iconst_3
    (Nothing, Small(4)), // 07 iconst_4
    (Nothing, Small(5)), // 08 iconst_5
    (Nothing, Unsupported), // 09 lconst_0
    (Nothing, Unsupported), // 0A lconst_1
    (Nothing, Unsupported), // 0B fconst_0
    (Nothing, Unsupported), // 0C fconst_1
    (Nothing, Unsupported), // 0D fconst_2
    (Nothing, Unsupported), // 0E dconst_0
    (Nothing, Unsupported), // 0F dconst_1
    (S1, Push), // 10 bipush
    (S2, Push), // 11 sipush
    (U1, Constant), // 12 ldc
    (U2, Constant), // 13 ldc_w
    (U2, UnsupportedConstant), // 14 ldc2_w
    (U1, Load(false)), // 15 iload
    (U1, UnsupportedLocal), // 16 lload
    (U1, UnsupportedLocal), // 17 fload
    (U1, UnsupportedLocal), // 18 dload
    (U1, Load(true)), // 19 aload
    (Nothing, LoadAt(false, 0)), // 1A iload_0
    (Nothing, LoadAt(false, 1)), // 1B iload_1
    (Nothing, LoadAt(false, 2)), // 1C iload_2
    (Nothing, LoadAt(false, 3)), // 1D iload_3
    (Nothing, UnsupportedLocalAt(0)), // 1E lload_0
    (Nothing, UnsupportedLocalAt(1)), // 1F lload_1
    (Nothing, UnsupportedLocalAt(2)), // 20 lload_2
    (Nothing, UnsupportedLocalAt(3)), // 21 lload_3
    (Nothing, UnsupportedLocalAt(0)), // 22 fload_0
    (Nothing, UnsupportedLocalAt(1)), // 23 fload_1
    (Nothing, UnsupportedLocalAt(2)), // 24 fload_2
    (Nothing, UnsupportedLocalAt(3)), // 25 fload_3
    (Nothing, UnsupportedLocalAt(0)), // 26 dload_0
    (Nothing, UnsupportedLocalAt(1)), // 27 dload_1
    (Nothing, UnsupportedLocalAt(2)), // 28 dload_2
    (Nothing, UnsupportedLocalAt(3)), // 29 dload_3
    (Nothing, LoadAt(true, 0)), // 2A aload_0
    (Nothing, LoadAt(true, 1)), // 2B aload_1
    (Nothing, LoadAt(true, 2)), // 2C aload_2
    (Nothing, LoadAt(true, 3)), // 2D aload_3
    (Nothing, ArrayLoad), // 2E iaload
    (Nothing, Unsupported), // 2F laload
    (Nothing, Unsupported), // 30 faload
    (Nothing, Unsupported), // 31 daload
    (Nothing, ArrayLoad), // 32 aaload
    (Nothing, ArrayLoad), // 33 baload
    (Nothing, Unsupported), // 34 caload
    (Nothing, ArrayLoad), // 35 saload
    (U1, Store(false)), // 36 istore
    (U1, UnsupportedLocal), // 37 lstore
    (U1, UnsupportedLocal), // 38 fstore
    (U1, UnsupportedLocal), // 39 dstore
    (U1, Store(true)), // 3A astore
    (Nothing, StoreAt(false, 0)), // 3B istore_0
    (Nothing, StoreAt(false, 1)), // 3C istore_1
    (Nothing, StoreAt(false, 2)), // 3D istore_2
    (Nothing, StoreAt(false, 3)), // 3E istore_3
    (Nothing, UnsupportedLocalAt(0)), // 3F lstore_0
    (Nothing, UnsupportedLocalAt(1)), // 40 lstore_1
    (Nothing, UnsupportedLocalAt(2)), // 41 lstore_2
    (Nothing, UnsupportedLocalAt(3)), // 42 lstore_3
    (Nothing, UnsupportedLocalAt(0)), // 43 fstore_0
    (Nothing, UnsupportedLocalAt(1)), // 44 fstore_1
    (Nothing, UnsupportedLocalAt(2)), // 45 fstore_2
    (Nothing, UnsupportedLocalAt(3)), // 46 fstore_3
    (Nothing, UnsupportedLocalAt(0)), // 47 dstore_0
    (Nothing, UnsupportedLocalAt(1)), // 48 dstore_1
    (Nothing, UnsupportedLocalAt(2)), // 49 dstore_2
    (Nothing, UnsupportedLocalAt(3)), // 4A dstore_3
    (Nothing, StoreAt(true, 0)), // 4B astore_0
    (Nothing, StoreAt(true, 1)), // 4C astore_1
    (Nothing, StoreAt(true, 2)), // 4D astore_2
    (Nothing, StoreAt(true, 3)), // 4E astore_3
    (Nothing, ArrayStore), // 4F iastore
    (Nothing, Unsupported), // 50 lastore
    (Nothing, Unsupported), // 51 fastore
    (Nothing, Unsupported), // 52 dastore
    (Nothing, ArrayStore), // 53 aastore
    (Nothing, ArrayStore), // 54 bastore
    (Nothing, Unsupported), // 55 castore
    (Nothing, ArrayStore), // 56 sastore
    (Nothing, Stack), // 57 pop
    (Nothing, Stack), // 58 pop2
    (Nothing, Stack), // 59 dup
    (Nothing, Stack), // 5A dup_x1
    (Nothing, Stack), // 5B dup_x2
    (Nothing, Stack), // 5C dup2
    (Nothing, Stack), // 5D dup2_x1
    (Nothing, Stack), // 5E dup2_x2
    (Nothing, Stack), // 5F swap
    (Nothing, Arith), // 60 iadd
    (Nothing, Unsupported), // 61 ladd
    (Nothing, Unsupported), // 62 fadd
    (Nothing, Unsupported), // 63 dadd
    (Nothing, Arith), // 64 isub
    (Nothing, Unsupported), // 65 lsub
    (Nothing, Unsupported), // 66 fsub
    (Nothing, Unsupported), // 67 dsub
    (Nothing, Arith), // 68 imul
    (Nothing, Unsupported), // 69 lmul
    (Nothing, Unsupported), // 6A fmul
    (Nothing, Unsupported), // 6B dmul
    (Nothing, Arith), // 6C idiv
    (Nothing, Unsupported), // 6D ldiv
    (Nothing, Unsupported), // 6E fdiv
    (Nothing, Unsupported), // 6F ddiv
    (Nothing, Arith), // 70 irem
    (Nothing, Unsupported), // 71 lrem
    (Nothing, Unsupported), // 72 frem
    (Nothing, Unsupported), // 73 drem
    (Nothing, Arith), // 74 ineg
    (Nothing, Unsupported), // 75 lneg
    (Nothing, Unsupported), // 76 fneg
    (Nothing, Unsupported), // 77 dneg
    (Nothing, Arith), // 78 ishl
    (Nothing, Unsupported), // 79 lshl
    (Nothing, Arith), // 7A ishr
    (Nothing, Unsupported), // 7B lshr
    (Nothing, Arith), // 7C iushr
    (Nothing, Unsupported), // 7D lushr
    (Nothing, Arith), // 7E iand
    (Nothing, Unsupported), // 7F land
    (Nothing, Arith), // 80 ior
    (Nothing, Unsupported), // 81 lor
    (Nothing, Arith), // 82 ixor
    (Nothing, Unsupported), // 83 lxor
    (U1S1, Inc), // 84 iinc
    (Nothing, Unsupported), // 85 i2l
    (Nothing, Unsupported), // 86 i2f
    (Nothing, Unsupported), // 87 i2d
    (Nothing, Unsupported), // 88 l2i
    (Nothing, Unsupported), // 89 l2f
    (Nothing, Unsupported), // 8A l2d
    (Nothing, Unsupported), // 8B f2i
    (Nothing, Unsupported), // 8C f2l
    (Nothing, Unsupported), // 8D f2d
    (Nothing, Unsupported), // 8E d2i
    (Nothing, Unsupported), // 8F d2l
    (Nothing, Unsupported), // 90 d2f
    (Nothing, Narrow), // 91 i2b
    (Nothing, Unsupported), // 92 i2c
    (Nothing, Narrow), // 93 i2s
    (Nothing, Unsupported), // 94 lcmp
    (Nothing, Unsupported), // 95 fcmpl
    (Nothing, Unsupported), // 96 fcmpg
    (Nothing, Unsupported), // 97 dcmpl
    (Nothing, Unsupported), // 98 dcmpg
    (S2, If), // 99 ifeq
    (S2, If), // 9A ifne
    (S2, If), // 9B iflt
    (S2, If), // 9C ifge
    (S2, If), // 9D ifgt
    (S2, If), // 9E ifle
    (S2, If), // 9F if_icmpeq
    (S2, If), // A0 if_icmpne
    (S2, If), // A1 if_icmplt
    (S2, If), // A2 if_icmpge
    (S2, If), // A3 if_icmpgt
    (S2, If), // A4 if_icmple
    (S2, If), // A5 if_acmpeq
    (S2, If), // A6 if_acmpne
    (S2, Goto), // A7 goto
    (S2, UnsupportedJump), // A8 jsr
    (U1, Ret), // A9 ret
    (Table, TableSwitch), // AA tableswitch
    (Lookup, LookupSwitch), // AB lookupswitch
    (Nothing, Return), // AC ireturn
    (Nothing, UnsupportedReturn), // AD lreturn
    (Nothing, UnsupportedReturn), // AE freturn
    (Nothing, UnsupportedReturn), // AF dreturn
    (Nothing, Return), // B0 areturn
    (Nothing, Return), // B1 return
    (U2, Static(false)), // B2 getstatic
    (U2, Static(true)), // B3 putstatic
    (U2, Field(false)), // B4 getfield
    (U2, Field(true)), // B5 putfield
    (U2, CallVirtual), // B6 invokevirtual
    (U2, CallDirect), // B7 invokespecial
    (U2, CallDirect), // B8 invokestatic
    (U2U1U1, CallInterface), // B9 invokeinterface
    (U2U1U1, UnsupportedConstant), // BA invokedynamic
    (U2, New), // BB new
    (U1, NewArray), // BC newarray
    (U2, ANewArray), // BD anewarray
    (Nothing, ArrayLength), // BE arraylength
    (Nothing, Throw), // BF athrow
    (U2, CheckCast), // C0 checkcast
    (U2, InstanceOf), // C1 instanceof
    (Nothing, Unsupported), // C2 monitorenter
    (Nothing, Unsupported), // C3 monitorexit
    (Nothing, Wide), // C4 wide
    (U2U1, UnsupportedClass), // C5 multianewarray
    (S2, If), // C6 ifnull
    (S2, If), // C7 ifnonnull
    (S4, Goto), // C8 goto_w
    (S4, UnsupportedJump), // C9 jsr_w
    (Nothing, Unknown), // CA
    (Nothing, Unknown), // CB
    (Nothing, Unknown), // CC
    (Nothing, Unknown), // CD
    (Nothing, Unknown), // CE
    (Nothing, Unknown), // CF
    (Nothing, Unknown), // D0
    (Nothing, Unknown), // D1
    (Nothing, Unknown), // D2
    (Nothing, Unknown), // D3
    (Nothing, Unknown), // D4
    (Nothing, Unknown), // D5
    (Nothing, Unknown), // D6
    (Nothing, Unknown), // D7
    (Nothing, Unknown), // D8
    (Nothing, Unknown), // D9
    (Nothing, Unknown), // DA
    (Nothing, Unknown), // DB
    (Nothing, Unknown), // DC
    (Nothing, Unknown), // DD
    (Nothing, Unknown), // DE
    (Nothing, Unknown), // DF
    (Nothing, Unknown), // E0
    (Nothing, Unknown), // E1
    (Nothing, Unknown), // E2
    (Nothing, Unknown), // E3
    (Nothing, Unknown), // E4
    (Nothing, Unknown), // E5
    (Nothing, Unknown), // E6
    (Nothing, Unknown), // E7
    (Nothing, Unknown), // E8
    (Nothing, Unknown), // E9
    (Nothing, Unknown), // EA
    (Nothing, Unknown), // EB
    (Nothing, Unknown), // EC
    (Nothing, Unknown), // ED
    (Nothing, Unknown), // EE
    (Nothing, Unknown), // EF
    (Nothing, Unknown), // F0
    (Nothing, Unknown), // F1
    (Nothing, Unknown), // F2
    (Nothing, Unknown), // F3
    (Nothing, Unknown), // F4
    (Nothing, Unknown), // F5
    (Nothing, Unknown), // F6
    (Nothing, Unknown), // F7
    (Nothing, Unknown), // F8
    (Nothing, Unknown), // F9
    (Nothing, Unknown), // FA
    (Nothing, Unknown), // FB
    (Nothing, Unknown), // FC
    (Nothing, Unknown), // FD
    (Nothing, Unknown), // FE
    (Nothing, Unknown), // FF
];

fn row(number: u8) -> (Operands, Family)
    ensures { result ≡ row number }
{
    TABLE[usize::from(number)]
}

fn is_unknown(family: Family) -> bool
    ensures { result ≡ is_unknown family }
{
    matches!(family, Unknown)
}

/// The opcode of this number, where there is one.
#[tactic(auto, unfolding(crate::specs::Instruction::opcode_at))]
pub(crate) fn opcode_at(number: u8) -> Option<Opcode>
    ensures { result ≡ opcode_at number }
{
    let (operands, family) = row(number);
    if is_unknown(family) {
        return None;
    }
    Some(Opcode {
        number,
        operands,
        family,
    })
}

fn wide(operands: Operands, family: Family) -> Option<Operands>
    ensures { result ≡ wide (operands, family) }
{
    match (operands, family) {
        (U1, Load(_) | Store(_) | UnsupportedLocal | Ret) => Some(U2),
        (U1S1, Inc) => Some(U2S2),
        _ => None,
    }
}

/// The opcode of this number behind the prefix, where it may stand there.
#[tactic(auto, unfolding(crate::specs::Instruction::wide_opcode_at))]
pub(crate) fn wide_opcode_at(number: u8) -> Option<Opcode>
    ensures { result ≡ wide_opcode_at number }
{
    let (narrow, family) = row(number);
    let operands = wide(narrow, family)?;
    Some(Opcode {
        number,
        operands,
        family,
    })
}

/// The operands of fixed number.
pub(crate) fn heads(operands: Operands) -> &'static [Operand]
    ensures { result.now ≡ heads operands }
{
    match operands {
        Nothing => &[],
        U1 => &[Operand::Unsigned1],
        S1 => &[Operand::Signed1],
        U2 => &[Operand::Unsigned2],
        S2 => &[Operand::Signed2],
        S4 => &[Operand::Signed4],
        U1S1 => &[Operand::Unsigned1, Operand::Signed1],
        U2S2 => &[Operand::Unsigned2, Operand::Signed2],
        U2U1 => &[Operand::Unsigned2, Operand::Unsigned1],
        U2U1U1 => &[Operand::Unsigned2, Operand::Unsigned1, Operand::Unsigned1],
        Table => &[Operand::Signed4, Operand::Signed4, Operand::Signed4],
        Lookup => &[Operand::Signed4, Operand::Signed4],
    }
}
