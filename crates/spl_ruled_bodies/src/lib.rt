//! What the rules say of each body of units that break none.
#![tactic(auto)]

mod laws;

pub use laws::{main_bodies_are_ruled, routines_are_ruled};
