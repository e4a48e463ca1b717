//! What the row of each opcode says, by its number (Java Card Virtual Machine Specification 2.2.2, chapter 7).

ghost use Rattle.std.specs.Prelude.{◌≡◌, slice_get};
ghost use Rattle.cjc_card_acts.specs.Rows.{row as row_by_opcode};
ghost use Rattle.cjc_card_acts.specs.Told.{row_told};

use OpcodeRow::{
    Asks, Calculates, CallsInterface, Casts, Copies, CopiesBelow, CountsItems, Forbidden,
    Increases, JumpsAlways, JumpsByNumbers, JumpsByReferences, Loads, LoadsItem, MakesNumbers,
    Pops, PushesNull, PushesNumbers, Returns, Stores, StoresItem, Swaps, Switches, Throws, Uses,
};
use Use::{Call, Get, GetStatic, New, NewReferences, Put, PutStatic};
use cjc_card_frame::opcodes::Mode::{Special, Static, Virtual};
use cjc_card_frame::opcodes::{Letter, Use};

/// What an opcode takes and gives, to be told of its operands.
#[derive(Clone, Copy)]
pub enum OpcodeRow {
    /// So many words that are numbers are put.
    PushesNumbers(u8),
    PushesNull,
    /// What the local of this number holds, or that of the operand.
    Loads(Letter, Option<u8>),
    Stores(Letter, Option<u8>),
    Increases(Letter),
    /// So many words are taken.
    Pops(u8),
    /// So many words on top once more.
    Copies(u8),
    CopiesBelow,
    Swaps,
    /// So many words that are numbers are taken, and so many put.
    Calculates(u8, u8),
    LoadsItem(Letter),
    StoresItem(Letter),
    CountsItems,
    Throws,
    /// A jump by so many words that are numbers, behind which the next instruction may follow.
    JumpsByNumbers(u8),
    /// The same by references.
    JumpsByReferences(u8),
    JumpsAlways,
    /// A switch by so many words.
    Switches(u8),
    Returns(Option<Letter>),
    /// What an entry of the constant pool names.
    Uses(Use),
    CallsInterface,
    MakesNumbers,
    Casts,
    Asks,
    /// jsr, ret and the reserved opcodes.
    Forbidden,
}

/// The rows of the opcodes from 00 to B8.
static ROWS: [OpcodeRow; 185] = [
    PushesNumbers(0), // 00 nop
    PushesNull, // 01 aconst_null
    PushesNumbers(1), // 02 sconst_m1
    PushesNumbers(1), // 03 sconst_0
    PushesNumbers(1), // 04 sconst_1
    PushesNumbers(1), // 05 sconst_2
    PushesNumbers(1), // 06 sconst_3
    PushesNumbers(1), // 07 sconst_4
    PushesNumbers(1), // 08 sconst_5
    PushesNumbers(2), // 09 iconst_m1
    PushesNumbers(2), // 0A iconst_0
    PushesNumbers(2), // 0B iconst_1
    PushesNumbers(2), // 0C iconst_2
    PushesNumbers(2), // 0D iconst_3
    PushesNumbers(2), // 0E iconst_4
    PushesNumbers(2), // 0F iconst_5
    PushesNumbers(1), // 10 bspush
    PushesNumbers(1), // 11 sspush
    PushesNumbers(2), // 12 bipush
    PushesNumbers(2), // 13 sipush
    PushesNumbers(2), // 14 iipush
    Loads(Letter::Reference, None), // 15 aload
    Loads(Letter::Short, None), // 16 sload
    Loads(Letter::Int, None), // 17 iload
    Loads(Letter::Reference, Some(0)), // 18 aload_0
    Loads(Letter::Reference, Some(1)), // 19 aload_1
    Loads(Letter::Reference, Some(2)), // 1A aload_2
    Loads(Letter::Reference, Some(3)), // 1B aload_3
    Loads(Letter::Short, Some(0)), // 1C sload_0
    Loads(Letter::Short, Some(1)), // 1D sload_1
    Loads(Letter::Short, Some(2)), // 1E sload_2
    Loads(Letter::Short, Some(3)), // 1F sload_3
    Loads(Letter::Int, Some(0)), // 20 iload_0
    Loads(Letter::Int, Some(1)), // 21 iload_1
    Loads(Letter::Int, Some(2)), // 22 iload_2
    Loads(Letter::Int, Some(3)), // 23 iload_3
    LoadsItem(Letter::Reference), // 24 aaload
    LoadsItem(Letter::Byte), // 25 baload
    LoadsItem(Letter::Short), // 26 saload
    LoadsItem(Letter::Int), // 27 iaload
    Stores(Letter::Reference, None), // 28 astore
    Stores(Letter::Short, None), // 29 sstore
    Stores(Letter::Int, None), // 2A istore
    Stores(Letter::Reference, Some(0)), // 2B astore_0
    Stores(Letter::Reference, Some(1)), // 2C astore_1
    Stores(Letter::Reference, Some(2)), // 2D astore_2
    Stores(Letter::Reference, Some(3)), // 2E astore_3
    Stores(Letter::Short, Some(0)), // 2F sstore_0
    Stores(Letter::Short, Some(1)), // 30 sstore_1
    Stores(Letter::Short, Some(2)), // 31 sstore_2
    Stores(Letter::Short, Some(3)), // 32 sstore_3
    Stores(Letter::Int, Some(0)), // 33 istore_0
    Stores(Letter::Int, Some(1)), // 34 istore_1
    Stores(Letter::Int, Some(2)), // 35 istore_2
    Stores(Letter::Int, Some(3)), // 36 istore_3
    StoresItem(Letter::Reference), // 37 aastore
    StoresItem(Letter::Byte), // 38 bastore
    StoresItem(Letter::Short), // 39 sastore
    StoresItem(Letter::Int), // 3A iastore
    Pops(1), // 3B pop
    Pops(2), // 3C pop2
    Copies(1), // 3D dup
    Copies(2), // 3E dup2
    CopiesBelow, // 3F dup_x
    Swaps, // 40 swap_x
    Calculates(2, 1), // 41 sadd
    Calculates(4, 2), // 42 iadd
    Calculates(2, 1), // 43 ssub
    Calculates(4, 2), // 44 isub
    Calculates(2, 1), // 45 smul
    Calculates(4, 2), // 46 imul
    Calculates(2, 1), // 47 sdiv
    Calculates(4, 2), // 48 idiv
    Calculates(2, 1), // 49 srem
    Calculates(4, 2), // 4A irem
    Calculates(1, 1), // 4B sneg
    Calculates(2, 2), // 4C ineg
    Calculates(2, 1), // 4D sshl
    Calculates(4, 2), // 4E ishl
    Calculates(2, 1), // 4F sshr
    Calculates(4, 2), // 50 ishr
    Calculates(2, 1), // 51 sushr
    Calculates(4, 2), // 52 iushr
    Calculates(2, 1), // 53 sand
    Calculates(4, 2), // 54 iand
    Calculates(2, 1), // 55 sor
    Calculates(4, 2), // 56 ior
    Calculates(2, 1), // 57 sxor
    Calculates(4, 2), // 58 ixor
    Increases(Letter::Short), // 59 sinc
    Increases(Letter::Int), // 5A iinc
    Calculates(1, 1), // 5B s2b
    Calculates(1, 2), // 5C s2i
    Calculates(2, 1), // 5D i2b
    Calculates(2, 1), // 5E i2s
    Calculates(4, 1), // 5F icmp
    JumpsByNumbers(1), // 60 ifeq
    JumpsByNumbers(1), // 61 ifne
    JumpsByNumbers(1), // 62 iflt
    JumpsByNumbers(1), // 63 ifge
    JumpsByNumbers(1), // 64 ifgt
    JumpsByNumbers(1), // 65 ifle
    JumpsByReferences(1), // 66 ifnull
    JumpsByReferences(1), // 67 ifnonnull
    JumpsByReferences(2), // 68 if_acmpeq
    JumpsByReferences(2), // 69 if_acmpne
    JumpsByNumbers(2), // 6A if_scmpeq
    JumpsByNumbers(2), // 6B if_scmpne
    JumpsByNumbers(2), // 6C if_scmplt
    JumpsByNumbers(2), // 6D if_scmpge
    JumpsByNumbers(2), // 6E if_scmpgt
    JumpsByNumbers(2), // 6F if_scmple
    JumpsAlways, // 70 goto
    Forbidden, // 71 jsr
    Forbidden, // 72 ret
    Switches(1), // 73 stableswitch
    Switches(2), // 74 itableswitch
    Switches(1), // 75 slookupswitch
    Switches(2), // 76 ilookupswitch
    Returns(Some(Letter::Reference)), // 77 areturn
    Returns(Some(Letter::Short)), // 78 sreturn
    Returns(Some(Letter::Int)), // 79 ireturn
    Returns(None), // 7A return
    Uses(GetStatic(Letter::Reference)), // 7B getstatic_a
    Uses(GetStatic(Letter::Byte)), // 7C getstatic_b
    Uses(GetStatic(Letter::Short)), // 7D getstatic_s
    Uses(GetStatic(Letter::Int)), // 7E getstatic_i
    Uses(PutStatic(Letter::Reference)), // 7F putstatic_a
    Uses(PutStatic(Letter::Byte)), // 80 putstatic_b
    Uses(PutStatic(Letter::Short)), // 81 putstatic_s
    Uses(PutStatic(Letter::Int)), // 82 putstatic_i
    Uses(Get(false, Letter::Reference)), // 83 getfield_a
    Uses(Get(false, Letter::Byte)), // 84 getfield_b
    Uses(Get(false, Letter::Short)), // 85 getfield_s
    Uses(Get(false, Letter::Int)), // 86 getfield_i
    Uses(Put(false, Letter::Reference)), // 87 putfield_a
    Uses(Put(false, Letter::Byte)), // 88 putfield_b
    Uses(Put(false, Letter::Short)), // 89 putfield_s
    Uses(Put(false, Letter::Int)), // 8A putfield_i
    Uses(Call(Virtual)), // 8B invokevirtual
    Uses(Call(Special)), // 8C invokespecial
    Uses(Call(Static)), // 8D invokestatic
    CallsInterface, // 8E invokeinterface
    Uses(New), // 8F new
    MakesNumbers, // 90 newarray
    Uses(NewReferences), // 91 anewarray
    CountsItems, // 92 arraylength
    Throws, // 93 athrow
    Casts, // 94 checkcast
    Asks, // 95 instanceof
    Increases(Letter::Short), // 96 sinc_w
    Increases(Letter::Int), // 97 iinc_w
    JumpsByNumbers(1), // 98 ifeq_w
    JumpsByNumbers(1), // 99 ifne_w
    JumpsByNumbers(1), // 9A iflt_w
    JumpsByNumbers(1), // 9B ifge_w
    JumpsByNumbers(1), // 9C ifgt_w
    JumpsByNumbers(1), // 9D ifle_w
    JumpsByReferences(1), // 9E ifnull_w
    JumpsByReferences(1), // 9F ifnonnull_w
    JumpsByReferences(2), // A0 if_acmpeq_w
    JumpsByReferences(2), // A1 if_acmpne_w
    JumpsByNumbers(2), // A2 if_scmpeq_w
    JumpsByNumbers(2), // A3 if_scmpne_w
    JumpsByNumbers(2), // A4 if_scmplt_w
    JumpsByNumbers(2), // A5 if_scmpge_w
    JumpsByNumbers(2), // A6 if_scmpgt_w
    JumpsByNumbers(2), // A7 if_scmple_w
    JumpsAlways, // A8 goto_w
    Uses(Get(false, Letter::Reference)), // A9 getfield_a_w
    Uses(Get(false, Letter::Byte)), // AA getfield_b_w
    Uses(Get(false, Letter::Short)), // AB getfield_s_w
    Uses(Get(false, Letter::Int)), // AC getfield_i_w
    Uses(Get(true, Letter::Reference)), // AD getfield_a_this
    Uses(Get(true, Letter::Byte)), // AE getfield_b_this
    Uses(Get(true, Letter::Short)), // AF getfield_s_this
    Uses(Get(true, Letter::Int)), // B0 getfield_i_this
    Uses(Put(false, Letter::Reference)), // B1 putfield_a_w
    Uses(Put(false, Letter::Byte)), // B2 putfield_b_w
    Uses(Put(false, Letter::Short)), // B3 putfield_s_w
    Uses(Put(false, Letter::Int)), // B4 putfield_i_w
    Uses(Put(true, Letter::Reference)), // B5 putfield_a_this
    Uses(Put(true, Letter::Byte)), // B6 putfield_b_this
    Uses(Put(true, Letter::Short)), // B7 putfield_s_this
    Uses(Put(true, Letter::Int)), // B8 putfield_i_this
];

/// A row by its number.
fn row_at(rows: &[OpcodeRow], number: u8) -> Option<OpcodeRow>
    ensures { result ≡ slice_get rows.now number }
{
    rows.get(usize::from(number)).copied()
}

/// The row of an opcode.
pub fn row(opcode: u8) -> OpcodeRow
    ensures { row_told result ≡ row_by_opcode opcode }
{
    match row_at(&ROWS, opcode) {
        Some(row) => row,
        None => Forbidden,
    }
}
