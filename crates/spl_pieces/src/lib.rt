//! The piece at the front of a unit's text: a blank, a comment, a command line or a token, or its fault.
#![tactic(auto)]

mod bytes;
mod commands;
mod numbers;
mod pieces;
mod turns;

pub use bytes::{blanked, past_all};
pub use commands::Setting;
pub use pieces::{Item, Piece};
pub use turns::{Fault, turn};
