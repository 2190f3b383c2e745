//! What is covered does not come to what has no meaning: values, conditions, arguments and references.
#![tactic(auto)]

mod laws;

pub use laws::{
    arguments_are_safe, conditions_are_safe, covered_values_are_safe, references_are_safe,
    wide_values_are_safe,
};
