//! Callees: procedures that call each other, and their subroutines, each followed where the others are.
#![tactic(auto)]

mod laws;

pub use laws::callees_follow;
pub use spl_cells::settable_procedures_are_called;
pub use spl_subroutines::{
    routines_are_procedures, subroutine_bodies_are_subroutines, subroutines_are_called,
};
