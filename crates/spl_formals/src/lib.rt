//! The words of parameters and results, and where these stand below a marker or a return word.
#![tactic(auto)]

mod lists;
mod two_complement;

pub use lists::{formal_words, formals_words, result_word};
pub use spl_lists;
pub use spl_spots;
pub use two_complement::{above, below};
