//! Where subroutines stand, and that a body's calls of them lead there.
#![tactic(auto)]

mod laws;

pub use laws::{inners_find, inners_land};
pub use spl_routes::{
    calls_find, gates_are_served, names_mean, sound_inners_land, sound_jumps_land,
    sound_routines_land,
};
