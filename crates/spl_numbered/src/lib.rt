//! The units of texts number their segments.
#![tactic(auto)]

mod laws;

pub use laws::texts_number_segments;
