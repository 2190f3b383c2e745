//! Operators by their levels, from operands up to whole expressions and conditions, by what reads an operand.
#![tactic(auto)]

mod levels;

pub use levels::Levels;
