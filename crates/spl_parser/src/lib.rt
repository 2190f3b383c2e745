//! The parser: the unit that a text's tokens spell, or their first fault.
#![tactic(auto)]

mod parser;

pub use parser::parse;
pub use spl_tokens::ParseFault;
