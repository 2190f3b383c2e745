//! Pieces in the code of modules: behind the beginning of each statement whose names are found stands a word that is run.
#![tactic(auto)]

mod laws;

pub use laws::{statements_begin_well, values_open};
