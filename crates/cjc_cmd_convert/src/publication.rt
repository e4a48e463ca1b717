//! What is written and printed of a conversion: its files below a folder, and a line for each. The command `convert`
//! calls it, and whoever runs what a conversion would write; it reads nothing and writes nothing.
mod files;

pub use files::publication;
