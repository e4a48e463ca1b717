//! What imported classes have by token, with all that stands above them by what export files list: made once for the
//! classes of all export files, so that each token is found at once. Whoever tests what components name of other
//! packages uses it. It knows no sentence.
mod classes;
mod graph;
mod listed;
mod lookup;
mod reach;
mod rows;
mod tokens;

pub use tokens::{Tokens, imported_tokens};
