//! MOVE and SCAN in trees: which are covered, performed by their code wherever it stands.
#![tactic(auto)]

mod laws;

pub use laws::{covered_moves_answer, covered_moves_perform};
