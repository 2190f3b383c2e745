//! What stays where instructions neither branch nor call: the place of the next step, and all that is not a word, X or a flag.
#![tactic(auto)]

mod laws;

pub use laws::{
    code_loads_stay, counts_stay, immediates_stay, intrinsics_stay, memory_rows_stay,
    moves_stay_or_pass, operations_stay, shifts_stay, steps_add_prints, words_are_near,
};
