//! Labels and jumps of units that break no rule lead somewhere.
#![tactic(auto)]

mod laws;

pub use laws::{sound_inners_land, sound_jumps_land, sound_routines_land};
