//! What it tells of units that their modules are linked without a fault.
#![tactic(auto)]

mod laws;

pub use laws::{linked_names_are_unique, linked_units_have_one_main};
pub use spl_carried::covered_programs_carry;
