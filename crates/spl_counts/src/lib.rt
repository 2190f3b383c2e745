//! FOR, performed by its code wherever it stands.
#![tactic(auto)]

mod laws;

pub use laws::counts_perform;
