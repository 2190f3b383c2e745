//! Where a word stands, what names have, sums of words, and the first limit that is passed: what the layout of data and the
//! generator of code both rest on.
#![tactic(auto)]

mod full;
mod name_maps;
mod places;
mod sums;

pub use full::{FirstFull, Full};
pub use name_maps::NameMap;
pub use places::Place;
pub use sums::plus;
