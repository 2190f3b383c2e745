//! What stands before and behind the statements of bodies, appended to the code of a unit in a segment.
#![tactic(auto)]

mod bodies;
mod cells;
mod frames;
mod initials;
mod laws;

pub use bodies::{
    Procedure, enter_main, enter_procedure, enter_subroutine, leave_main, leave_procedure,
    leave_subroutine,
};
pub use laws::frames_are_of_bodies;
