//! The places of entries are those that names have by look-up.
#![tactic(auto)]

mod laws;

pub use laws::{entries_have_places, items_are_data};
