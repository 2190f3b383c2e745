//! The modules of units are such as the segmenter may be handed.
#![tactic(auto)]

mod laws;

pub use laws::{modules_are_few, modules_are_formed};
