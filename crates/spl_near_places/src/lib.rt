//! The words of names stand where the machine's modes reach.
#![tactic(auto)]

mod laws;

pub use laws::{bodies_of_units_are_near, split_names_are_framed, subroutines_are_near};
