//! Units that break no rule: the names of their bodies are found, and so each statement of their code has a word behind its beginning.
#![tactic(auto)]

mod laws;

pub use laws::{
    bodies_begin_well, modules_begin_well, sound_bodies_are_found, sound_codes_may_stand,
    sound_units_begin_well,
};
pub use spl_piece_kinds::modules_have_kinds;
