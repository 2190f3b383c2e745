//! How calls in the code of a body find procedures and subroutines, and that the code of a call makes it.
#![tactic(auto)]

mod laws;

pub use laws::calls_simulate;
