//! Bit fields of what stands at places that are counted from the top of the stack, stored by their code wherever it stands.
#![tactic(auto)]

mod laws;

pub use laws::fields_are_put;
