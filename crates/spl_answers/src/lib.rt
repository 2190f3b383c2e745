//! What an intrinsic answers, as a value in an expression, by its code wherever it stands.
#![tactic(auto)]

mod laws;

pub use laws::answers_simulate;
