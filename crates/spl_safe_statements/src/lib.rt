//! Statements that are never lost, where their parts are not.
#![tactic(auto)]

mod laws;

pub use laws::{bodies_are_safe, statements_are_safe};
