//! The trees of statements, one layer at a time, and what stands in statements beside statements, read from the tokens of a unit.
#![tactic(auto)]

mod conditions;
mod trees;

pub use conditions::{until_condition, values};
pub use trees::{
    Values, block, call, case_of, done, empty, for_values, go_to, if_test, labelled, pushed,
    returned, single, until_true, while_true,
};
