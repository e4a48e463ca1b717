//! That the class files of a converted package, run by name, and its components, run by token, behave alike: what is
//! told of every package, and what of one none of whose methods is in int mode. For whoever promises so of what was
//! converted. It has a definition and laws alone; nothing here runs.
mod call_opcodes;
mod converted_laws;
mod first_cells;
mod halves;
mod insn_names;
mod interface_calls;
mod joined_laws;
mod met_laws;
mod named_calls;
mod named_laws;
mod virtual_calls;

pub use call_opcodes::{calls_have_opcodes, calls_of_files_have_opcodes};
pub use converted_laws::{components_of_files_are_consistent, converted_components_are_consistent};
pub use first_cells::first_cells_are_typed;
pub use halves::{
    components_run_as_selected_code, selected_code_behaves_alike, written_code_has_fewest_bytes,
};
pub use insn_names::{instructions_name_what_is_there, instructions_of_files_name_what_is_there};
pub use interface_calls::{
    fixed_calls_take_words, interface_calls_are_named, private_calls_are_named,
};
pub use joined_laws::{converted_components_run_by_token, converted_packages_are_joined};
pub use met_laws::{
    converted_packages_are_laid_out, files_keep_promises, keys_are_known, lists_have_short_aids,
    members_are_there, names_are_met, types_are_known,
};
pub use named_calls::{calls_are_named, calls_of_files_are_named};
pub use named_laws::{
    export_files_are_kept, fixed_calls_are_named, names_are_there, names_of_files_are_there,
};
pub use virtual_calls::{super_calls_are_named, virtual_calls_are_named};
