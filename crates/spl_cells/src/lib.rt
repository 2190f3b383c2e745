//! Cells and initial values: what sets them at a procedure's entry does so in the machine as in the run.
#![tactic(auto)]

mod laws;

pub use laws::{settable_are_set, settable_procedures_are_called};
