//! The static cells of the machine by token: the image of each package, what cells hold by a letter and what is
//! put into them, and what images and heap are before the first entry, against the definitions of cjc_card_semantics.
//! Whoever runs components calls it. Knows no frame, no constant pool and no name.
mod first;
mod image;
mod numbers;
mod statics;

pub use first::{first_image, push_arrays};
pub use image::Image;
pub use statics::Statics;
