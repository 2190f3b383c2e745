//! A subroutine is called within its segment.
#![tactic(auto)]

mod laws;

pub use laws::{steps_stay_near, subroutine_calls_are_near};
