//! What a row is over a stack whose top words may stand in registers, and the moves in which rows are made.
#![tactic(auto)]

mod places;
mod results;
mod words;

pub use places::{put, read_at, read_byte, write_at, write_byte};
pub use results::{delete_coded, leave_coded, pass, settle};
pub use words::{need, push, push_all};
