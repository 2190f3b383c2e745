//! Statements, read from the tokens of a unit.
#![tactic(auto)]

mod statements;

pub use statements::{statement, statement_list};
