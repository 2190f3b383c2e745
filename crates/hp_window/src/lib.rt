//! A session's data in two typed states: whole mode, where DB addresses the stack, and split mode, where it addresses
//! the extra segment.
#![tactic(auto)]

mod bounds;
mod split;
mod whole;

pub use bounds::Bounds;
pub use split::Split;
pub use whole::Whole;

#[cfg(test)]
mod tests;
