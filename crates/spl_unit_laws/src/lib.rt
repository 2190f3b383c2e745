//! How the code of a unit grows along its declarations, and that it comes to the modules of the program.
#![tactic(auto)]

mod cursors;
mod laws;

pub use cursors::{Cursor, Start};
pub use laws::{labels_stand_once, units_are_made};
