//! What each opcode of the card means, as data: one table that is the definition's. Whoever runs the bytes of Method
//! calls it. It knows no frame, no heap, no component and no name.
mod kinds;
mod table;

pub use kinds::{
    Access, Calculation, Condition, Division, Kind, Letter, Meaning, Mode, Operation, Relation, Use,
};
pub use table::opcode_meaning;
