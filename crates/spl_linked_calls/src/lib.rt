//! The calls in bodies are of procedures that their modules have or want.
#![tactic(auto)]

mod laws;

pub use laws::covered_lists_are_linked;
pub use spl_safe_parts::{
    bodies_are_safe, covered_parts_are_safe, statements_are_safe, values_have_their_words,
};
