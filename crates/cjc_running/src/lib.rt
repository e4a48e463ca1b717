//! What runs of class files start from: the package of a list with its files, and a script, as they are read
//! and tested. The command that runs class files calls it; it knows no machine.
#![tactic(auto)]

mod input;
mod reads;
mod ready;

pub use input::Input;
pub use reads::gather_input;
pub use ready::{Ready, make_ready};
