//! Declarations, read from the tokens of a unit by what reads bodies and statements.
#![tactic(auto)]

mod declarations;

pub use declarations::Declarations;
