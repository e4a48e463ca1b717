//! What each opcode means, by its number (Java Card Virtual Machine Specification 2.2.2, chapter 7). Called by whoever
//! runs code.

ghost use Rattle.std.specs.Prelude.{◌≡◌, ◌⊎◌, slice_get, true};
ghost use Rattle.cjc_card_semantics.specs.Bytecode.Meanings.{meaning};
ghost use Rattle.cjc_card_frame.specs.Meanings.{is_literal, meaning_of};

use crate::opcodes::kinds::{
    Access, Calculation, Condition, Division, Kind, Letter, Meaning, Mode, Operation, Relation, Use,
};
use Access::{Length, Return, Throw};
use Calculation::{
    CompareInts, Copy, CopyBelow, DivideInts, DivideWords, Increase, IncreaseInt, Int, IntLiteral,
    IntToByte, IntToWord, Ints, Literal, Load, LoadAt, NegateInt, NegateWord, Pop, Store, StoreAt,
    Swap, Word, WordToByte, WordToInt, Words,
};
use Condition::{Always, Number, Numbers, Same};
use Division::{Quotient, Remainder};
use Meaning::{Ask, Branch, CallInterface, Cast, NewNumbers, Paired, Plain, Ranged, Touch};
use Mode::{Special, Static, Virtual};
use Operation::{And, Difference, Or, Product, ShiftLeft, ShiftRight, ShiftUnsigned, Sum, Xor};
use Relation::{Equal, Greater, Less, NotEqual, NotGreater, NotLess};
use Use::{Call, Get, GetStatic, New, NewReferences, Put, PutStatic};

/// The opcodes from 00 to B8.
static MEANINGS: [Meaning; 185] = [
    Plain(Calculation::Nothing), // 00 nop
    Plain(Calculation::Null), // 01 aconst_null
    Plain(Word(-1)), // 02 sconst_m1
    Plain(Word(0)), // 03 sconst_0
    Plain(Word(1)), // 04 sconst_1
    Plain(Word(2)), // 05 sconst_2
    Plain(Word(3)), // 06 sconst_3
    Plain(Word(4)), // 07 sconst_4
    Plain(Word(5)), // 08 sconst_5
    Plain(Int(-1)), // 09 iconst_m1
    Plain(Int(0)), // 0A iconst_0
    Plain(Int(1)), // 0B iconst_1
    Plain(Int(2)), // 0C iconst_2
    Plain(Int(3)), // 0D iconst_3
    Plain(Int(4)), // 0E iconst_4
    Plain(Int(5)), // 0F iconst_5
    Plain(Literal), // 10 bspush
    Plain(Literal), // 11 sspush
    Plain(IntLiteral), // 12 bipush
    Plain(IntLiteral), // 13 sipush
    Plain(IntLiteral), // 14 iipush
    Plain(Load(Kind::Reference)), // 15 aload
    Plain(Load(Kind::Word)), // 16 sload
    Plain(Load(Kind::Int)), // 17 iload
    Plain(LoadAt(Kind::Reference, 0)), // 18 aload_0
    Plain(LoadAt(Kind::Reference, 1)), // 19 aload_1
    Plain(LoadAt(Kind::Reference, 2)), // 1A aload_2
    Plain(LoadAt(Kind::Reference, 3)), // 1B aload_3
    Plain(LoadAt(Kind::Word, 0)), // 1C sload_0
    Plain(LoadAt(Kind::Word, 1)), // 1D sload_1
    Plain(LoadAt(Kind::Word, 2)), // 1E sload_2
    Plain(LoadAt(Kind::Word, 3)), // 1F sload_3
    Plain(LoadAt(Kind::Int, 0)), // 20 iload_0
    Plain(LoadAt(Kind::Int, 1)), // 21 iload_1
    Plain(LoadAt(Kind::Int, 2)), // 22 iload_2
    Plain(LoadAt(Kind::Int, 3)), // 23 iload_3
    Touch(Access::Load(Letter::Reference)), // 24 aaload
    Touch(Access::Load(Letter::Byte)), // 25 baload
    Touch(Access::Load(Letter::Short)), // 26 saload
    Touch(Access::Load(Letter::Int)), // 27 iaload
    Plain(Store(Kind::Reference)), // 28 astore
    Plain(Store(Kind::Word)), // 29 sstore
    Plain(Store(Kind::Int)), // 2A istore
    Plain(StoreAt(Kind::Reference, 0)), // 2B astore_0
    Plain(StoreAt(Kind::Reference, 1)), // 2C astore_1
    Plain(StoreAt(Kind::Reference, 2)), // 2D astore_2
    Plain(StoreAt(Kind::Reference, 3)), // 2E astore_3
    Plain(StoreAt(Kind::Word, 0)), // 2F sstore_0
    Plain(StoreAt(Kind::Word, 1)), // 30 sstore_1
    Plain(StoreAt(Kind::Word, 2)), // 31 sstore_2
    Plain(StoreAt(Kind::Word, 3)), // 32 sstore_3
    Plain(StoreAt(Kind::Int, 0)), // 33 istore_0
    Plain(StoreAt(Kind::Int, 1)), // 34 istore_1
    Plain(StoreAt(Kind::Int, 2)), // 35 istore_2
    Plain(StoreAt(Kind::Int, 3)), // 36 istore_3
    Touch(Access::Store(Letter::Reference)), // 37 aastore
    Touch(Access::Store(Letter::Byte)), // 38 bastore
    Touch(Access::Store(Letter::Short)), // 39 sastore
    Touch(Access::Store(Letter::Int)), // 3A iastore
    Plain(Pop(1)), // 3B pop
    Plain(Pop(2)), // 3C pop2
    Plain(Copy(1)), // 3D dup
    Plain(Copy(2)), // 3E dup2
    Plain(CopyBelow), // 3F dup_x
    Plain(Swap), // 40 swap_x
    Plain(Words(Sum)), // 41 sadd
    Plain(Ints(Sum)), // 42 iadd
    Plain(Words(Difference)), // 43 ssub
    Plain(Ints(Difference)), // 44 isub
    Plain(Words(Product)), // 45 smul
    Plain(Ints(Product)), // 46 imul
    Plain(DivideWords(Quotient)), // 47 sdiv
    Plain(DivideInts(Quotient)), // 48 idiv
    Plain(DivideWords(Remainder)), // 49 srem
    Plain(DivideInts(Remainder)), // 4A irem
    Plain(NegateWord), // 4B sneg
    Plain(NegateInt), // 4C ineg
    Plain(Words(ShiftLeft)), // 4D sshl
    Plain(Ints(ShiftLeft)), // 4E ishl
    Plain(Words(ShiftRight)), // 4F sshr
    Plain(Ints(ShiftRight)), // 50 ishr
    Plain(Words(ShiftUnsigned)), // 51 sushr
    Plain(Ints(ShiftUnsigned)), // 52 iushr
    Plain(Words(And)), // 53 sand
    Plain(Ints(And)), // 54 iand
    Plain(Words(Or)), // 55 sor
    Plain(Ints(Or)), // 56 ior
    Plain(Words(Xor)), // 57 sxor
    Plain(Ints(Xor)), // 58 ixor
    Plain(Increase), // 59 sinc
    Plain(IncreaseInt), // 5A iinc
    Plain(WordToByte), // 5B s2b
    Plain(WordToInt), // 5C s2i
    Plain(IntToByte), // 5D i2b
    Plain(IntToWord), // 5E i2s
    Plain(CompareInts), // 5F icmp
    Branch(Number(Equal)), // 60 ifeq
    Branch(Number(NotEqual)), // 61 ifne
    Branch(Number(Less)), // 62 iflt
    Branch(Number(NotLess)), // 63 ifge
    Branch(Number(Greater)), // 64 ifgt
    Branch(Number(NotGreater)), // 65 ifle
    Branch(Condition::Null(true)), // 66 ifnull
    Branch(Condition::Null(false)), // 67 ifnonnull
    Branch(Same(true)), // 68 if_acmpeq
    Branch(Same(false)), // 69 if_acmpne
    Branch(Numbers(Equal)), // 6A if_scmpeq
    Branch(Numbers(NotEqual)), // 6B if_scmpne
    Branch(Numbers(Less)), // 6C if_scmplt
    Branch(Numbers(NotLess)), // 6D if_scmpge
    Branch(Numbers(Greater)), // 6E if_scmpgt
    Branch(Numbers(NotGreater)), // 6F if_scmple
    Branch(Always), // 70 goto
    Meaning::Nothing, // 71 jsr
    Meaning::Nothing, // 72 ret
    Ranged(false), // 73 stableswitch
    Ranged(true), // 74 itableswitch
    Paired(false), // 75 slookupswitch
    Paired(true), // 76 ilookupswitch
    Touch(Return(Some(Letter::Reference))), // 77 areturn
    Touch(Return(Some(Letter::Short))), // 78 sreturn
    Touch(Return(Some(Letter::Int))), // 79 ireturn
    Touch(Return(None)), // 7A return
    Meaning::Use(GetStatic(Letter::Reference)), // 7B getstatic_a
    Meaning::Use(GetStatic(Letter::Byte)), // 7C getstatic_b
    Meaning::Use(GetStatic(Letter::Short)), // 7D getstatic_s
    Meaning::Use(GetStatic(Letter::Int)), // 7E getstatic_i
    Meaning::Use(PutStatic(Letter::Reference)), // 7F putstatic_a
    Meaning::Use(PutStatic(Letter::Byte)), // 80 putstatic_b
    Meaning::Use(PutStatic(Letter::Short)), // 81 putstatic_s
    Meaning::Use(PutStatic(Letter::Int)), // 82 putstatic_i
    Meaning::Use(Get(false, Letter::Reference)), // 83 getfield_a
    Meaning::Use(Get(false, Letter::Byte)), // 84 getfield_b
    Meaning::Use(Get(false, Letter::Short)), // 85 getfield_s
    Meaning::Use(Get(false, Letter::Int)), // 86 getfield_i
    Meaning::Use(Put(false, Letter::Reference)), // 87 putfield_a
    Meaning::Use(Put(false, Letter::Byte)), // 88 putfield_b
    Meaning::Use(Put(false, Letter::Short)), // 89 putfield_s
    Meaning::Use(Put(false, Letter::Int)), // 8A putfield_i
    Meaning::Use(Call(Virtual)), // 8B invokevirtual
    Meaning::Use(Call(Special)), // 8C invokespecial
    Meaning::Use(Call(Static)), // 8D invokestatic
    CallInterface, // 8E invokeinterface
    Meaning::Use(New), // 8F new
    NewNumbers, // 90 newarray
    Meaning::Use(NewReferences), // 91 anewarray
    Touch(Length), // 92 arraylength
    Touch(Throw), // 93 athrow
    Cast, // 94 checkcast
    Ask, // 95 instanceof
    Plain(Increase), // 96 sinc_w
    Plain(IncreaseInt), // 97 iinc_w
    Branch(Number(Equal)), // 98 ifeq_w
    Branch(Number(NotEqual)), // 99 ifne_w
    Branch(Number(Less)), // 9A iflt_w
    Branch(Number(NotLess)), // 9B ifge_w
    Branch(Number(Greater)), // 9C ifgt_w
    Branch(Number(NotGreater)), // 9D ifle_w
    Branch(Condition::Null(true)), // 9E ifnull_w
    Branch(Condition::Null(false)), // 9F ifnonnull_w
    Branch(Same(true)), // A0 if_acmpeq_w
    Branch(Same(false)), // A1 if_acmpne_w
    Branch(Numbers(Equal)), // A2 if_scmpeq_w
    Branch(Numbers(NotEqual)), // A3 if_scmpne_w
    Branch(Numbers(Less)), // A4 if_scmplt_w
    Branch(Numbers(NotLess)), // A5 if_scmpge_w
    Branch(Numbers(Greater)), // A6 if_scmpgt_w
    Branch(Numbers(NotGreater)), // A7 if_scmple_w
    Branch(Always), // A8 goto_w
    Meaning::Use(Get(false, Letter::Reference)), // A9 getfield_a_w
    Meaning::Use(Get(false, Letter::Byte)), // AA getfield_b_w
    Meaning::Use(Get(false, Letter::Short)), // AB getfield_s_w
    Meaning::Use(Get(false, Letter::Int)), // AC getfield_i_w
    Meaning::Use(Get(true, Letter::Reference)), // AD getfield_a_this
    Meaning::Use(Get(true, Letter::Byte)), // AE getfield_b_this
    Meaning::Use(Get(true, Letter::Short)), // AF getfield_s_this
    Meaning::Use(Get(true, Letter::Int)), // B0 getfield_i_this
    Meaning::Use(Put(false, Letter::Reference)), // B1 putfield_a_w
    Meaning::Use(Put(false, Letter::Byte)), // B2 putfield_b_w
    Meaning::Use(Put(false, Letter::Short)), // B3 putfield_s_w
    Meaning::Use(Put(false, Letter::Int)), // B4 putfield_i_w
    Meaning::Use(Put(true, Letter::Reference)), // B5 putfield_a_this
    Meaning::Use(Put(true, Letter::Byte)), // B6 putfield_b_this
    Meaning::Use(Put(true, Letter::Short)), // B7 putfield_s_this
    Meaning::Use(Put(true, Letter::Int)), // B8 putfield_i_this
];

/// A row by its number.
fn row(rows: &[Meaning], number: u8) -> Option<Meaning>
    ensures { result ≡ slice_get rows.now number }
{
    rows.get(usize::from(number)).copied()
}

/// The meaning of an opcode.
pub fn opcode_meaning(opcode: u8) -> Meaning
    ensures is { meaning_of result ≡ meaning opcode }
    ensures literal { is_literal result ≡ true → (opcode ≡ 0x10) ⊎ (opcode ≡ 0x11) }
{
    match row(&MEANINGS, opcode) {
        Some(meaning) => meaning,
        None => Meaning::Nothing,
    }
}
