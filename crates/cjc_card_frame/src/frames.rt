//! Methods under way by token: the place of the instruction in code, the place behind a call, the words; how a
//! method begins, takes the arguments of a call, goes on behind a call with its result, and goes on at a
//! handler, against the definition of the machine by token. Whoever runs components calls it. Knows no heap, no
//! constant pool and no look-up.
mod frame;
mod taking;

pub use frame::Frame;
pub use taking::arguments;
