//! What `check LIST DIR` reads, and what it answers of that: whether the components of a folder are consistent
//! with each other and with the export files that a list names. The program's top call names it; it knows no
//! class file and no machine.
mod checking;
mod laws;

pub use checking::{gather_check, print_ok};
pub use laws::one_answer;
