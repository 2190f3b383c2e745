//! The codes of a unit, one for each of its segments: as they begin, what modules they become, and in which order.
#![tactic(auto)]

mod growing;
mod picking;

pub use growing::{Growing, begin, finish};
pub use picking::{pick, segment_numbers, used_segments};
