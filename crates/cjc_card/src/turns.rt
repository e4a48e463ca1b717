//! What follows an instruction by token: exceptions and their handlers, results, calls, and imported calls with their
//! answers, over the state of a run and any look-ups, against the definition of the machine by token. Whoever runs
//! components calls it. Knows no instruction, no component and not how names are looked up.
mod after;
mod answers;
mod calls;
mod machine;
mod notes;
mod throws;

pub use after::After;
pub use machine::Machine;
pub use notes::copy_of;
pub use throws::type_name;
