//! Values stored through words that are counted from the top of the stack, with an index that waits below the value or none.
#![tactic(auto)]

mod laws;

pub use laws::{doubles_are_put, words_are_put};
