//! What the tests of sentences on components share: items that stand one behind the other and a test of each,
//! the first of two broken places, and classes, methods and components, each found at once. The tests of
//! sentences call it. It knows no sentence.
mod along;
mod methods;
mod names;
mod parts;
mod sizes;
mod spot;
mod tokens;

pub use along::{
    Comparison, Item, Numbered, Test, first_along, first_beside, first_numbered, is_among, starts,
    total,
};
pub use methods::{Methods, method_starts, static_starts};
pub use names::{Names, Want, is_own_class};
pub use parts::{Parts, parts_of};
pub use sizes::{first_class, pool_count_at, size_items, types_begin};
pub use spot::{earlier, same_bool, unless};
pub use tokens::tokens_of;
