//! Where data stand: words of items, limits, places and initial data words.
#![tactic(auto)]

mod counters;
mod data;
mod laws;
mod limits;
mod places;
mod words;

pub use counters::{Counter, Part, total};
pub use data::{Datum, constant_or_zero, declarations, declare_all, shaped_here};
pub use laws::{
    items_are_held, items_have_places, items_move_starts, items_pass_limits, items_stand_apart,
    sound_items_are_new,
};
pub use limits::{global_limits, local_limits};
pub use places::{Area, Array, ListPlaces, Starts, frame_starts, list_places};
pub use spl_lists;
pub use spl_spots;
pub use spl_spots::{NameMap, Place};
pub use words::{array_words, elements, elements_words, is_own, item_words};
