//! The arrays and objects of the machine by token: classes and fields by token, arrays by what they hold, objects with
//! a slot for each token, and what is found and replaced in them, against the definitions of cjc_card_semantics.
//! Whoever runs
//! components calls it. Knows no frame, no component and no name.
mod class;
mod heap;
mod object;
mod slots;

pub use class::{Class, Element, Field, Shape, same_class, same_element, same_field};
pub use heap::Heap;
pub use object::{HeapObject, Parts};
pub use slots::{Slot, slot_at};
