//! Operators over values of one word, given and tested by their code behind that of their operands.
#![tactic(auto)]

mod laws;

pub use laws::{operators_simulate, signs_simulate};
