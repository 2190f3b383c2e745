//! The code of statements, as definitions, and the laws of it.
#![tactic(auto)]

mod laws;

pub use laws::{statement_has_few_words, statements_have_few_words};
