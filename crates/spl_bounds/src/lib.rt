//! Programs keep the bounds of their units: in entries, in words, in their segments and their order, and in data words.
#![tactic(auto)]

mod laws;

pub use laws::{
    data_words_are_initial, modules_make_segments, parts_have_few_entries, parts_keep_bounds,
    programs_keep_bounds, segments_have_few_words,
};
