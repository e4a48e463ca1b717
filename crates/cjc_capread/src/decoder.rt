//! The code of methods as the card reads it: the instruction at the front of bytes, with its operands and the
//! table of a switch, and a method's header. Whoever reads the bytes of Method calls it. It knows no component.
mod header;
mod insn;
mod number;
mod operands;
mod shape;
mod table;

pub use header::{Header, method_header};
pub use insn::{Insn, decode};
pub use number::{Kind, operand, width};
pub use operands::Operands;
pub use shape::Shape;
pub use table::{Matches, Table, entry_size};
