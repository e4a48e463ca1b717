//! Files of cases, byte for byte: export files, and class files made by hand. Crates of tests name them; it
//! knows no test.
#![tactic(auto)]

mod classes;
mod compiled;
mod exports;

pub use classes::{
    ABSTRACT, ASKS, BELOW, CALLS_FIRST, CAUGHT, EITHER, GIVES_ONE, GIVES_TWO, INSTALLS, INTERFACE,
    LOADS_A_LONG, MEMBERS, NARROWER, OVERRIDES, ROWS, STATICS, SUM, TWO_ORDERS, WALLET, WIDER,
};
pub use compiled::{
    BELOW_IMPORTED, CALLS_INTERFACES, CATCHES, KINDS, NARROW, OWN_EXCEPTION, SHARED, SHARES,
    VISIBLE, WIDENS,
};
pub use exports::{FRAMEWORK, LANG, Q, S, SHAREABLE};
