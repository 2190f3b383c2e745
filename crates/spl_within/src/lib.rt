//! Expressions and conditions as parts of what stands around them.
#![tactic(auto)]

mod expressions;

pub use expressions::{arguments_within, condition_within, enclosed_within, expression_within};
