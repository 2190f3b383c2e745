//! The instructions of majors 1 and 2, and those of major 3 that count words: all work on the top words, X and the flags.
#![tactic(auto)]

mod branch_rows;
mod word_rows;

pub use branch_rows::{range, shift_of, shift_top, short_branch};
pub use word_rows::{count_words, with_immediate};
