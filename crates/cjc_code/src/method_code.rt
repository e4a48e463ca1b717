//! `MethodCode`, the instructions of one method, and `Codes`, those of all methods of a package in one order.
//! Rules, inference and writing all read these.

use crate::insn::JInsn;
use cjc_bytes::Row;

/// The instructions of a method.
#[derive(Drop)]
pub struct MethodCode {
    /// The number of the class among the package's, in list order.
    pub class: u32,
    /// The number of the method among the class's, in the order of the class file.
    pub method: u32,
    pub insns: Row<JInsn>,
}

/// Those of all methods of a package that have code: classes in list order, methods in class file order.
pub type Codes = Row<MethodCode>;
