//! Where the code of modules and of procedures stands in a program.
#![tactic(auto)]

mod laws;

pub use laws::{gates_are_served, routines_stand};
