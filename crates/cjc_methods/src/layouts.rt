//! The methods of a package with their layouts, the limits of their form, and where they stand in Method (Java
//! Card Virtual Machine Specification 2.2.2, section 6.9). Whoever converts a package calls it, once it has the
//! narrow code. It knows no token and no byte of code.
mod laid;
mod laws;
mod layouts;
mod limits;
mod starts;
mod tries;

pub use laid::{Laid, Methods};
pub use laws::methods_are_of_a_package;
pub use layouts::lay_out;
pub use starts::{first_method, header_size, offsets};
