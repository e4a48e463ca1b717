//! What the machine by token is told by the components of a group and the export files: methods, calls and static
//! cells as data, and the look-ups as the machine asks them. Whoever runs components stands on it. It knows no frame
//! that runs and no component.
mod kinds;
mod lookups;
mod uses;

pub use kinds::{Callee, CellName, Code, ImportedMethod, Reached, Start, StaticCell, Token};
pub use lookups::LookUps;
pub use uses::entries_are_used;
