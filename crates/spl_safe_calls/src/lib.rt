//! Calls that are never lost.
#![tactic(auto)]

mod laws;

pub use laws::{calls_are_safe, programs_are_safe};
pub use spl_frames::values_have_their_words;
pub use spl_safe_statements::{bodies_are_safe, statements_are_safe};
