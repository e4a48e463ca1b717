//! What every command of the program does: it reads files by a plan, computes what is to be written and
//! printed, then writes, then prints. How each can end, and what stands after each end, is said and proved
//! here once; nothing here knows any one command.
mod publishing;
mod reading;
mod status;

pub use publishing::{publish, put_pieces, writes};
pub use reading::{fetch, fetch_each};
pub use status::{File, Status, Todo};
