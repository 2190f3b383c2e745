//! What it means that the machine follows a run of the source.
#![tactic(auto)]

mod laws;

pub use laws::{
    pieces_are_met, pieces_stand_in_order, rows_do_what_code_says, statements_begin,
    statements_follow, steps_add_up, stretches_add_up, values_are_tested, values_follow,
};
pub use spl_frames::{openings_have_their_words, words_stay_words};
