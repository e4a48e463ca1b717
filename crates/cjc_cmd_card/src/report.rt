//! What `card LIST DIR SCRIPT N` makes of what it reads: the report of the run by token of the components of a
//! folder, with names from the class files of a list. The program's top call calls it; it knows no instruction,
//! and of the rules 719 alone.
mod laws;
mod parts;
mod reporting;
mod running;

pub use laws::one_answer;
pub use parts::part_of;
pub use reporting::report_of;
pub use running::gather_card;
