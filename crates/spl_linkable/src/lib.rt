//! Units of which a program can be made whichever form each branch takes, and how many words its segments have at most.
#![tactic(auto)]

mod laws;

pub use laws::{no_fault_is_told, no_modules_fail, segments_keep_bounds};
