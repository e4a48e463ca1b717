//! What a look-up answers: a field or method by its class and its place there, in the package or in an export
//! file. It is a number to keep, and lends nothing.

/// The place of a field or method.
#[derive(Clone, Copy, Debug, PartialEq, Eq)]
pub struct Found {
    /// Whether an export file has it.
    pub imported: bool,
    /// The place of its class: among the package's classes in list order, or among the classes of all export
    /// files, in list order and as they stand in a file.
    pub class: u32,
    /// The place in its class: the fields are counted first, then the methods, as they stand in the file.
    pub member: u32,
}
