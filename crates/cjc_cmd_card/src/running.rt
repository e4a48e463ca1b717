//! What runs of components start from: the package of a list with its files, the components of a folder, and a
//! script, as they are read and tested. The command that runs components calls it; it knows no machine.
mod input;
mod package;
mod reads;
mod ready;

pub use input::Input;
pub use package::gather_package;
pub use reads::gather_input;
pub use ready::{Ready, make_ready};
