//! The operations of major 0 over a stack whose top words may stand in registers.
#![tactic(auto)]

mod arithmetic;
mod doubles;
mod logic;
mod operations;
mod placing;
mod results;

pub use operations::stack_op;
