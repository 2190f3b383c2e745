//! Where the calls of procedures lead.
#![tactic(auto)]

mod laws;

pub use laws::{calls_find, names_mean, routines_land};
pub use spl_routines::gates_are_served;
pub use spl_sound_jumps::{sound_inners_land, sound_jumps_land, sound_routines_land};
