//! Assignments of DOUBLE expressions in a tree, by their code wherever it stands.
#![tactic(auto)]

mod laws;

pub use laws::wide_assignments_perform;
