//! Values: constants, simple variables and sums, given by their code wherever it stands.
#![tactic(auto)]

mod laws;

pub use laws::{constants_simulate, sums_simulate, variables_simulate};
