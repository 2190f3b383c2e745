//! The items of all units and of all procedures, and the limits that they pass.
#![tactic(auto)]

mod gather;
mod limits;

pub use gather::{all_globals, all_locals, list_items};
pub use limits::{program_globals, program_locals};
pub use spl_places;
pub use spl_places::{spl_lists, spl_spots};
