//! Laws of the class hierarchy of a package that broke no rule: calls reach code, and initialisers leave the image.
#![tactic(auto)]

pub mod calls;
pub mod initialisers;
pub mod selection;
