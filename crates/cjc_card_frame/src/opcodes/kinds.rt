//! What an opcode of the card can mean, to be told of its operands (Java Card Virtual Machine Specification 2.2.2,
//! chapter 7). Called by the table, and by whoever runs instructions.

/// What an instruction moves, by the letter of its name: a, b, s, i.
#[derive(Clone, Copy)]
pub enum Letter {
    Reference,
    Byte,
    Short,
    Int,
}

/// What a local holds.
#[derive(Clone, Copy)]
pub enum Kind {
    Reference,
    Word,
    /// In two locals.
    Int,
}

/// An operation of two numbers that is the same for words and ints.
#[derive(Clone, Copy)]
pub enum Operation {
    Sum,
    Difference,
    Product,
    ShiftLeft,
    /// With copies of the sign.
    ShiftRight,
    /// With zeros.
    ShiftUnsigned,
    And,
    Or,
    Xor,
}

/// A division of two numbers.
#[derive(Clone, Copy)]
pub enum Division {
    Quotient,
    Remainder,
}

/// A relation of two numbers.
#[derive(Clone, Copy)]
pub enum Relation {
    Equal,
    NotEqual,
    Less,
    NotLess,
    Greater,
    NotGreater,
}

/// A calculation on the stack and the locals.
#[derive(Clone, Copy)]
pub enum Calculation {
    /// nop.
    Nothing,
    Null,
    /// A number is pushed as a word or as an int.
    Word(i8),
    Int(i8),
    /// The operand is.
    Literal,
    IntLiteral,
    /// The number of the local is the operand, or it is given.
    Load(Kind),
    LoadAt(Kind, u8),
    Store(Kind),
    StoreAt(Kind, u8),
    /// sinc and iinc.
    Increase,
    IncreaseInt,
    /// So many words leave the stack.
    Pop(u8),
    /// So many words are copied.
    Copy(u8),
    CopyBelow,
    Swap,
    Words(Operation),
    Ints(Operation),
    DivideWords(Division),
    DivideInts(Division),
    NegateWord,
    NegateInt,
    WordToByte,
    WordToInt,
    IntToByte,
    IntToWord,
    CompareInts,
}

/// The condition of a jump.
#[derive(Clone, Copy)]
pub enum Condition {
    /// A number beside 0.
    Number(Relation),
    /// Two numbers.
    Numbers(Relation),
    /// Whether a reference is null, or is not.
    Null(bool),
    /// Whether two references are the same, or are not.
    Same(bool),
    Always,
}

/// What sees the heap and no name, and returns.
#[derive(Clone, Copy)]
pub enum Access {
    Load(Letter),
    Store(Letter),
    Length,
    Throw,
    Return(Option<Letter>),
}

/// How a method is called by an entry of the pool.
#[derive(Clone, Copy)]
pub enum Mode {
    Virtual,
    Special,
    Static,
}

/// What is done with what an entry of the pool names. A `bool` is whether the object is that of local 0.
#[derive(Clone, Copy)]
pub enum Use {
    Get(bool, Letter),
    Put(bool, Letter),
    GetStatic(Letter),
    PutStatic(Letter),
    Call(Mode),
    New,
    NewReferences,
}

/// What an opcode means. A `bool` is whether a switch is by an int.
#[derive(Clone, Copy)]
pub enum Meaning {
    Plain(Calculation),
    /// A jump where a condition holds.
    Branch(Condition),
    /// A switch over the numbers from a low one on, or over matches.
    Ranged(bool),
    Paired(bool),
    Touch(Access),
    Use(Use),
    CallInterface,
    NewNumbers,
    /// checkcast and instanceof.
    Cast,
    Ask,
    /// No row of the machine: jsr, ret, the reserved opcodes and bytes that are no opcode.
    Nothing,
}
