//! The code of a unit in a segment is complete.
#![tactic(auto)]

mod laws;

pub use laws::codes_are_complete;
