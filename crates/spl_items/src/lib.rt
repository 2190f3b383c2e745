//! Data items and names for constants, as declarations list them, read from the tokens of a unit.
#![tactic(auto)]

mod data;
mod equates;

pub use data::{arrays, items};
pub use equates::equals;
pub use spl_listed::pointers;
