//! Choices, loops and jumps, followed where their parts are.
#![tactic(auto)]

mod laws;

pub use laws::{choices_follow, landings_follow, lists_perform, loops_follow};
