//! Parts of expressions that were read, and what operators make of them.
#![tactic(auto)]

mod comparison;
mod joins;
mod parts;

pub use comparison::Comparison;
pub use joins::{combined, measured, shifted_by, signed};
pub use parts::{
    Found, Part, address, called, element_address, enclosing, field_of, inverted, number, string,
    transferred, truth, variable, wide,
};
