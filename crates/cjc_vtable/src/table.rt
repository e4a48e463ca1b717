//! The tables of the classes of a package (Java Card Virtual Machine Specification 2.2.2, section 6.8).

use cjc_world::Found;
use cjc_world::bytes::{Bytes, Row};

/// What the tokens of an interface's methods are in a class that has the interface.
#[derive(Drop)]
pub struct InterfaceMap {
    /// The name of the interface.
    pub interface: Bytes,
    /// By the interface's own tokens the public tokens of the class.
    pub index: Row<u8>,
}

/// The tables of a class that is no interface.
#[derive(Drop)]
pub struct ClassTable {
    /// The place of the class among the package's classes, in list order.
    pub class: u32,
    /// The least token of a public or protected method that the class declares, overrides or got; the next free one
    /// where there is none.
    pub public_base: u8,
    /// The methods from that token on. None is written 0xFFFF: no method of the package is meant.
    pub public: Row<Option<Found>>,
    /// The same of package-visible methods, without the high bit of their tokens.
    pub package_base: u8,
    /// The package-visible methods from that token on.
    pub package: Row<Found>,
    /// The interfaces of the class, in order.
    pub maps: Row<InterfaceMap>,
}

/// The tables of a package.
#[derive(Drop)]
pub struct ClassTables {
    /// Those of the classes that are no interfaces, in the order of Class.
    pub rows: Row<ClassTable>,
}
