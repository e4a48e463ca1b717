//! Values of scripts and words of components: which values are of which types, what the acts of a script do to the
//! heap by token, and the words of values and the values of words, over any look-ups, against the definition of the
//! machine by token. Whoever runs components calls it. Knows no frame, no call and no instruction.
mod acts;
mod fields;
mod fitting;
mod words;

pub use acts::perform;
pub use fields::{field_letter, zero_of};
pub use fitting::{all_fit, result_fits};
pub use words::{event_values, put_fitting};
