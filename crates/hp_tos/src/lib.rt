//! The register stack: one list of words, of which up to four at the top stand in registers.
#![tactic(auto)]

mod data;
mod references;
mod refusals;
mod registers;
mod stack;

pub use data::Data;
pub use refusals::{Overflow, Underflow};
pub use stack::Stack;
