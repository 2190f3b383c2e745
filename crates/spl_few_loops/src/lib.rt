//! How deep loops nest in units that tokens spell: not so deep that their words need two instructions to be deleted.
#![tactic(auto)]

mod laws;

pub use laws::{few_loops_nest, loops_are_fors};
