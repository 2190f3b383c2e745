//! Operands behind no NOT, by what reads an expression inside them.
#![tactic(auto)]

mod atoms;

pub use atoms::{Atoms, negated};
