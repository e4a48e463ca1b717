//! `ComponentPlace`, a place in a component by tag and offset: where a sentence is said to be broken. It knows no
//! sentence.

/// A place in a component.
#[derive(Clone, Copy)]
pub struct ComponentPlace {
    /// The tag of the component.
    pub component: u8,
    /// In bytes, from the start of the component's file.
    pub offset: u32,
}
