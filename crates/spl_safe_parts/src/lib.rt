//! The parts of statements that are covered are never lost.
#![tactic(auto)]

mod laws;

pub use laws::covered_parts_are_safe;
pub use spl_safe_calls::{bodies_are_safe, statements_are_safe, values_have_their_words};
