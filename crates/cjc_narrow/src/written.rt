//! What is written for instructions as far as no look-up by name decides it (Java Card Virtual Machine Specification
//! 2.2.2, chapter 7): numbers, locals, arithmetic, jumps, switches and type tests, the places of what is written,
//! handlers, and the words of arguments. Called by whoever selects the code of methods. It knows no class and no token.
mod catches;
mod descriptor;
mod number;
mod opcodes;
mod places;
mod plain;
mod switches;
mod type_tests;
mod widest;

pub use catches::catches_at;
pub use descriptor::{field_access, static_access, this_access, words_by};
pub use number::pushed;
pub use opcodes::arithmetic;
pub use places::Places;
pub use plain::{is_byte, local, put_plain};
pub use type_tests::{Test, tested};
pub use widest::widest_sum;
