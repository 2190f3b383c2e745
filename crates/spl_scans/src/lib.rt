//! MOVE of strings, MOVE WHILE and SCAN, by themselves and as values, performed by their code wherever it stands.
#![tactic(auto)]

mod laws;

pub use laws::{class_moves_perform, scans_perform, text_moves_perform};
