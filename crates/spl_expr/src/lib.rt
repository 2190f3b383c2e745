//! The expression or the condition that begins at some token of a unit.
#![tactic(auto)]

mod calls;

pub use calls::{condition, expression};
