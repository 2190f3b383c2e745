//! Words that stand for pieces of code, by what the machine does there.
#![tactic(auto)]

mod laws;

pub use laws::{modules_stand, words_stand};
