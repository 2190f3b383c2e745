//! Where the labels of a body lead, a mark for each, made before the code of its statements.
#![tactic(auto)]

mod label_lists;
mod label_marks;

pub use label_lists::{Label, labels};
pub use label_marks::landings;
