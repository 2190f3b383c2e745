//! The code of statements, appended to the code of a unit in a segment.
#![tactic(auto)]

mod assignments;
mod contexts;
mod effects;
mod generator;
mod jumps;
mod parts;
mod statements;

pub use generator::{gen_statement, gen_statements};
