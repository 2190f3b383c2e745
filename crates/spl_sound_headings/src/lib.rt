//! Headings of one name are alike, in units that break no rule.
#![tactic(auto)]

mod laws;

pub use laws::{headings_are_alike, main_subroutines_are_theirs, subroutines_are_theirs};
