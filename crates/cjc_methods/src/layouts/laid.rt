//! Methods with their layouts. Whoever writes components reads them.

use cjc_bytes::Row;
use cjc_components::layout::Layout;
use cjc_narrow::ncode::NMethod;
use cjc_world::Found;

/// Which method it is, and its layout.
#[derive(Drop)]
pub struct Laid {
    /// Its class, and its place among the members there: fields are counted first, and methods that the class
    /// got behind its own.
    pub member: Found,
    /// Whether it is a header alone.
    pub is_abstract: bool,
    pub layout: Layout,
}

/// The methods of a package, in the order of Method.
#[derive(Drop)]
pub struct Methods {
    /// The narrow code of each.
    pub codes: Row<NMethod>,
    /// The layout of each, in the same order.
    pub laid: Row<Laid>,
}
