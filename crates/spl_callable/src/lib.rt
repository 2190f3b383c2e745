//! Procedures of a program and subroutines of its bodies that may be called: those of some names whose bodies are covered.
#![tactic(auto)]

mod laws;

pub use laws::callables_follow;
pub use spl_inners::{sound_inners_land, sound_jumps_land, sound_routines_land};
pub use spl_mains::{followed_programs_carry, main_bodies_follow};
