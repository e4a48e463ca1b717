//! Methods under way by name: operand stacks, locals, methods with an index of their instructions, what arithmetic
//! gives, and every instruction of class files that asks neither look-ups nor the heap, against the definition that
//! cjc_jvm_semantics gives. Knows no heap, no classes, no tokens, no components, and nothing of the card's machine.
mod activation;
mod arithmetic;
mod branches;
mod calculation;
mod calls;
mod deed;
mod locals;
mod method;
pub mod number;
mod pile;
mod returns;
mod stack;

pub use activation::{Activation, is_kind, is_same_kind};
pub use calculation::{Calculation, calculate};
pub use calls::Caller;
pub use deed::{Deed, Exception};
pub use method::Method;
pub use pile::Pile;
