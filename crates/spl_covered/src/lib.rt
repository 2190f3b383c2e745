//! Expressions that are covered, given and tested by their code wherever it stands.
#![tactic(auto)]

mod laws;

pub use laws::{
    arguments_simulate, covered_tests_simulate, covered_values_simulate, wide_values_simulate,
};
