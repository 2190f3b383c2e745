//! Words in memory and code, and branches, over a stack whose top words may stand in registers.
#![tactic(auto)]

mod instructions;
mod jumps;
mod places;
mod short_branches;
mod wide;
mod words;

pub use instructions::memory_op;
