//! What runs of class files start from: the package of a list with its files, and a script, as they are read and
//! tested; and what is printed of the report of a run. The commands that run class files and components call it; it
//! knows no machine.
mod input;
mod printing;
mod reads;
mod ready;

pub use input::Input;
pub use printing::report_todo;
pub use reads::{gather_input, names_of};
pub use ready::{Ready, make_ready};
