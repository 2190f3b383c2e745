//! The initial data words of a program: cells of arrays and initial values, put into a vector of words.
#![tactic(auto)]

mod cells;
mod initials;
mod laws;
mod lists;
mod memory;
mod values;

pub use cells::{array_named, global_address, place_named, put_cells};
pub use initials::put_initials;
pub use laws::lists_are_laid;
pub use lists::{list_cells, list_initials};
pub use memory::{put_byte, store, word_at};
pub use spl_places;
pub use spl_places::{spl_lists, spl_spots};
pub use values::{put_constants, put_value};
