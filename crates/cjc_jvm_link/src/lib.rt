//! Look-ups by name over the world of a package, and over those of several that run together: what code and scripts
//! name, for the machine by name. Called by
//! who runs class files by name; it knows no frame that runs, no tokens and no components.
#![tactic(auto)]

// Lower crates, for those above.
/// What crates above take of cjc_world.
pub mod world {
    pub use cjc_world::StaticImage;
}

mod calls;
mod cells;
mod fresh;
mod group;
mod hits;
mod indices;
mod joint;
mod links;
mod methods;
mod wanted;
mod zeros;

pub use group::{GroupLinks, Package};
pub use indices::indices_of;
pub use joint::{joint_image, joint_world};
pub use links::Links;
