//! What `make NUMBER SIZE` prints: the summary of a package that is made, converted, and run by name and by token. The
//! program's top call calls it; the package and what is written of it stand on a shelf in memory, and no other file is
//! read or written.
mod by_name;
mod by_token;
mod ends;
mod laws;
mod making;
mod shelf;
mod summary;

pub use laws::one_answer;
pub use making::gather_make;
