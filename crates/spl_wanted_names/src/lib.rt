//! The names that modules want: how many, and which of the system.
#![tactic(auto)]

mod laws;

pub use laws::modules_want_few_names;
