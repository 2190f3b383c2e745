//! For tests: the text of one unit as its tree, or its first fault.
#![tactic(auto)]

mod faults;
mod front;
#[cfg(test)]
mod tests;

pub use faults::UnitFault;
pub use front::read_unit;
