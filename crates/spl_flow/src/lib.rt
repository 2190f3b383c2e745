//! The rules of statements and bodies, as they are checked along the tree.
#![tactic(auto)]

mod bodies;
mod codes;
mod effects;
mod labels;
mod statements;
mod targets;
mod values;

pub use bodies::{body, subroutine_body};
pub use statements::statement;
