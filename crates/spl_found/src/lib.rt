//! The first broken rule as it is found along the tree of units, as definitions, and the law that it is the first.
#![tactic(auto)]

mod laws;

pub use laws::{first_rules_are_found, first_rules_are_walked};
