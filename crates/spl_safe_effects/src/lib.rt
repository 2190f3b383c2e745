//! MOVE and SCAN, assignments and calls by themselves do not come to what has no meaning where they are covered.
#![tactic(auto)]

mod laws;

pub use laws::{
    assignments_are_safe, call_statements_are_safe, counters_are_safe, effects_are_safe,
    intrinsics_set_codes,
};
