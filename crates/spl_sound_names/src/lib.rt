//! Names in units that break no rule: what they stand for is known, and has its place.
#![tactic(auto)]

mod laws;

pub use laws::{names_are_found, names_are_known, names_stay, subroutines_stand_last};
