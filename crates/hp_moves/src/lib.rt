//! Moves, scans and the comparison of bytes over a stack whose top words may stand in registers, one element a step.
#![tactic(auto)]

mod elements;
mod instructions;
mod moves;
mod scans;
mod sources;
mod steps;

pub use instructions::move_op;
pub use steps::MoveStep;
