//! Conditions: relations, NOT, AND and OR, as values and as tests, given by their code wherever it stands.
#![tactic(auto)]

mod laws;

pub use laws::{
    closed_values_simulate, complements_simulate, connectives_simulate, relations_simulate,
};
