//! The calls in expressions are of procedures that their modules have or want.
#![tactic(auto)]

mod laws;

pub use laws::covered_values_are_linked;
