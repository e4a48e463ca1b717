//! The files that a list and a folder of components name together: which are read, in which order, and what
//! they spell. Called by every command that looks at components. It knows no class file, and not what
//! components say of each other.
mod folder;
mod laws;
mod names;
mod reads;
mod trees;

pub use folder::{Folder, Parts};
pub use laws::parts_between;
pub use names::{component_name, export_names, file_name};
pub use reads::{gather_folder, gather_parts};
pub use trees::{FolderTrees, cap_of, folder_trees};
