//! Programs: their segments, what makes one valid, and where a word of code comes from.
#![tactic(auto)]

mod program;
mod segments;
mod store;
mod valid;

pub use program::{Defect, Program};
pub use segments::{fetch, segment_words};
pub use store::{CodeStore, Fetched};
pub use valid::{entry_count, label_word};
