//! The test of the sentence on Export: its offsets are what Descriptor gives the tokens. Whoever tests components
//! calls it. It knows no code.
mod offsets;

pub use offsets::export_spot;
