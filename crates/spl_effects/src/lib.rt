//! References, assignments, moves, scans and tests, read from the tokens of a unit.
#![tactic(auto)]

mod assignments;
mod effects;
mod references;

pub use assignments::{assigned, behind_reference};
pub use effects::{effect, test};
pub use references::{element, variable};
