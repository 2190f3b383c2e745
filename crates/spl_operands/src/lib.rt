//! Operands: where the operand of a memory instruction is, and words read and stored through the word of a name.
#![tactic(auto)]

mod laws;

pub use laws::{cells_are_assigned, cells_simulate, elements_are_assigned, elements_simulate};
