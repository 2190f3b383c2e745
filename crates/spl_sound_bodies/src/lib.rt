//! What bodies that break no rule are: plain, and with cells and values that their entry sets.
#![tactic(auto)]

mod laws;

pub use laws::{sound_lists_are_plain, sound_procedures_are_settable, sound_statements_are_plain};
