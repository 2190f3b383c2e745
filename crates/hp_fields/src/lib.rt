//! Shifts, fields, immediate numbers, the window split and joined, X and counts of words, over a stack whose top words may
//! stand in registers.
#![tactic(auto)]

mod counts;
mod fields;
mod instructions;
mod numbers;
mod shifts;

pub use instructions::field_op;
