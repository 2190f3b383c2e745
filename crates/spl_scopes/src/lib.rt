//! The scopes of bodies and the entries of modules, as definitions, and the law that ties them to the program.
#![tactic(auto)]

mod laws;

pub use laws::bodies_are_of_the_program;
