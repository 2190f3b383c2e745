//! Tests of the rules, from texts of units to the first rule that they break. They stand apart from the checker, which does not need to
//! read texts.
#![tactic(auto)]

#[cfg(test)]
mod tests;
mod told;

pub use told::{Told, one, two};
