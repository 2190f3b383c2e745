//! What the grammar says of trees beside their rules.
#![tactic(auto)]

mod laws;

pub use laws::{cut_tokens_have_bytes, spelled_units_are_shaped};
