//! The gate: the eight intrinsics, served over a stack whose top words may stand in registers and a session's terminal.
#![tactic(auto)]

mod answers;
mod bytes;
mod gate;
mod intrinsics;

pub use gate::{Served, serve};
