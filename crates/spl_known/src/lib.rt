//! Known programs: what the definitions of sources' meaning say of them, computed from their texts.
#![tactic(auto)]

mod known_rules;
mod known_runs;

pub use known_rules::{
    bounds_are_counted, faults_are_found, known_programs_are_right, limits_are_counted,
};
pub use known_runs::{
    arithmetic_is_done, calls_are_done, effects_are_done, losses_are_told, references_are_made,
    statements_are_begun, statements_are_run,
};
