//! Procedures: a call of one does in the machine what it does in the run.
#![tactic(auto)]

mod laws;

pub use laws::{none_are_set, procedures_are_called, routines_are_procedures};
