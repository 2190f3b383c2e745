//! Bodies and units, read from the tokens of a text.
#![tactic(auto)]

mod units;

pub use spl_statements;
pub use units::{UnitParts, unit};
