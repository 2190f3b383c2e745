//! Programs that break no rule carry their units.
#![tactic(auto)]

mod laws;

pub use laws::{sound_programs_are_covered, sound_programs_carry};
pub use spl_linked_names::linked_names_are_unique;
