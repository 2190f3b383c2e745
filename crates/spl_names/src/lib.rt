//! Names, given by their code wherever it stands.
#![tactic(auto)]

mod laws;

pub use laws::{names_simulate, wide_names_simulate};
