//! Header, Applet, Import and Directory of a package (Java Card Virtual Machine Specification 2.2.2, sections
//! 6.3 to 6.6). The converter calls it. It knows no class but by its name, and no size: whoever calls it has
//! them.
mod applets;
mod counts;
mod headers;
mod imports;

pub use applets::applet;
pub use counts::directory;
pub use headers::header;
pub use imports::import;
