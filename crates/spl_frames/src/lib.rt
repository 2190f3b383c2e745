//! Live frames of a run: where their data words stand, and that they stay.
#![tactic(auto)]

mod laws;

pub use laws::{
    bodies_begin_lawfully, calls_enter, depths_cover_calls, depths_cover_uses, lawful_states_stay,
    openings_have_their_words, parts_keep_frames, values_have_their_words, words_stay_words,
};
