//! Stores: assignments to simple variables, and all statements that are covered, performed by their code wherever it stands.
#![tactic(auto)]

mod laws;

pub use laws::{assignments_perform, covered_statements_perform};
