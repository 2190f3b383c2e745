//! The operations of major 0, on the words at the top of the stack.
#![tactic(auto)]

mod arithmetic_rows;
mod placing_rows;
mod stack_rows;

pub use arithmetic_rows::character;
pub use stack_rows::operate;
