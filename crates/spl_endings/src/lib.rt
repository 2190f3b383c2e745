//! Endings: calls of the intrinsics that end a session, performed by their code wherever it stands.
#![tactic(auto)]

mod laws;

pub use laws::{ending_calls_perform, last_calls_end};
