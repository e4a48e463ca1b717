//! The packages that are converted so far, of one small form: the test of the form, the trees of what is written for them, and
//! the definitions of machines and of consistent components that its promise speaks of. Called by cjc_convert; it goes as a
//! whole when every package is converted.
#![tactic(auto)]

mod above;
mod alike;
mod components;
mod consistent;
mod example;
mod exporting;
mod form;
mod laws;
mod selected;
mod worked;

pub use above::root_of;
pub use alike::first_form_behaves_alike;
pub use components::tree_for;
pub use consistent::first_form_is_consistent;
pub use example::{example_acts_run, example_is_converted, example_runs};
pub use exporting::exported;
pub use form::{Form, first_form};
pub use laws::consistent_where_unbroken;
pub use worked::{example_is_consistent, worked_codes_are_cut, worked_items_are_found};
