//! The heap of class files' machine: arrays and objects in order of creation, and what instructions read and
//! write of them, against the definition that cjc_jvm_semantics gives. Of cjc_jvm_step it has the exceptions. Knows no
//! classes and no look-ups.
mod halt;
mod heap;
mod kind;
mod object;
mod statics;
mod type_name;

pub use halt::Halt;
pub use heap::{Heap, HeapElement};
pub use kind::{ArrayKind, Element, Moves, kind_of};
pub use object::{HeapObject, Parts};
pub use statics::Statics;
pub use type_name::TypeName;
