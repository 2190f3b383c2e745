//! Names, headings and options of declarations, read from the tokens of a unit.
#![tactic(auto)]

mod headings;
mod name_lists;
mod options;

pub use headings::{heading, with_split};
pub use name_lists::{names, parameters};
pub use options::{Options, option_list};
