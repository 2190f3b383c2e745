//! Subroutines: a call of one does in the machine what it does in the run.
#![tactic(auto)]

mod laws;

pub use laws::{subroutine_bodies_are_subroutines, subroutines_are_called};
pub use spl_procedures::routines_are_procedures;
