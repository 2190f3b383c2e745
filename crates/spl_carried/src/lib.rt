//! Programs whose main bodies are covered carry their units.
#![tactic(auto)]

mod laws;

pub use laws::covered_programs_carry;
