//! The tokens of a unit's text, cut in one pass.
#![tactic(auto)]

mod defines;
mod lexer;
mod listing;
mod reader;
mod reserved;
mod segments;
mod signs;
mod state;

pub use lexer::tokens;
pub use spl_cuts::{LexFault, LexKind};
