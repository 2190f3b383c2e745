//! What stays the same along the walk over a unit's declarations, and what needs no code of bodies: indexes, levels, and the
//! modules that codes become.
#![tactic(auto)]

mod fixed;
mod indexes;
mod levels;
mod picks;

pub use fixed::Fixed;
pub use indexes::{own_subroutines, segment_procedures};
pub use levels::whole_level;
pub use picks::picked_parts;
