//! What the initialisers of a package do: the static image, and rule 308 (Java Card Virtual Machine
//! Specification 2.2.2, section 6.10). It knows no token and no machine.
#![tactic(auto)]

mod breaks;
mod fields;
mod laws;
mod puts;
mod stage;
mod stages;
mod static_image;

pub use laws::{images, initialisers, refusals};
pub use stage::{Held, Stage, Start};
pub use static_image::{first_broken, image};
