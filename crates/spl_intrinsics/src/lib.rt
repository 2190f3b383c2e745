//! Calls of the intrinsics that answer: what they print, read, store and answer is what the source's calls do.
#![tactic(auto)]

mod laws;

pub use laws::{intrinsic_calls_perform, intrinsics_answer};
