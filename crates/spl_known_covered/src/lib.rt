//! Known programs: which of them are covered, computed from their texts.
#![tactic(auto)]

mod laws;

pub use laws::programs_are_covered;
