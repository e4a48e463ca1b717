//! The names of classes and of static cells that the components of a package are given from its class files, in
//! the order of components. Whoever runs components beside their class files calls it. It knows no component.
mod cells;
mod classes;
mod fields;
mod methods;

pub use cells::cell_names;
pub use classes::class_names;
