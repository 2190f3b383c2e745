//! The state of a session, and what all rows do to it: words taken and pushed, places read and stored, results left.
#![tactic(auto)]

mod going;
mod places;
mod registers;
mod results;
mod session;
mod stack_words;
mod terminal;
mod word_parts;

pub use going::displacement;
pub use places::Place;
pub use registers::Regs;
pub use session::Session;
pub use terminal::Line;
pub use word_parts::{byte_of, code_of, double_of, high_of, low_of, signed_word, with_byte};
