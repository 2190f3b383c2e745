//! MOVE by a count, by itself and as a value, performed by its code wherever it stands.
#![tactic(auto)]

mod laws;

pub use laws::counted_moves_perform;
