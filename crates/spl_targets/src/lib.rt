//! Targets: assignments of one word in a tree.
#![tactic(auto)]

mod laws;

pub use laws::words_are_assigned;
