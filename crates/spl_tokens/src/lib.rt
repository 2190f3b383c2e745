//! The tokens of a unit as the grammar reads them: a cursor, symbols, letters and constants.
#![tactic(auto)]

mod constants;
mod faults;
mod openings;
mod operators;
mod symbols;
mod tokens;
mod words;

pub use constants::{constant, is_sign};
pub use faults::{Fault, ParseFault};
pub use openings::{enter, opening};
pub use operators::{binds, is_number, is_word, operator_of, shift_of};
pub use symbols::{same, symbol, token_symbol};
pub use tokens::Tokens;
pub use words::{letters, name, text};
