//! What `jvm LIST SCRIPT N` makes of what it reads: the report of the run by name of the class files that a
//! list names. The program's top call calls it; it knows no token and no component.
mod reporting;
mod room;
mod running;

pub use reporting::{has_room, report_of};
pub use running::gather_run;
