//! How many calls and entries a unit has at most: no more than the tokens that spell it.
#![tactic(auto)]

mod laws;

pub use laws::units_have_few_calls;
