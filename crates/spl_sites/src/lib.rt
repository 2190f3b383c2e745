//! The ground of a program that is made of modules, and that the pieces of its modules fit it.
#![tactic(auto)]

mod laws;

pub use laws::{grounds_say_starts, modules_fit, programs_stand, starts_fit};
