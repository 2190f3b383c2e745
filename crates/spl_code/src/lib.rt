//! The code of expressions and conditions, as definitions, and the laws of it.
#![tactic(auto)]

mod laws;

pub use laws::{code_has_few_words, reference_has_few_words};
