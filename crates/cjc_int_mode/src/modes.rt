//! `Mode`, as the crates above see it.

/// How the numbers of a method are kept on the card.
#[derive(Clone, Copy)]
pub enum Mode {
    /// A number is one word, the low half of its 32 bits.
    Short,
    /// A number is two words, its whole value of 32 bits.
    Int,
}
