//! The code of bodies around that of their statements, as definitions, and the laws of it.
#![tactic(auto)]

mod laws;

pub use laws::{
    bodies_are_joined, cells_move_with_the_base, local_words_are_zero, main_body_has_few_words,
    procedure_has_few_words, subroutine_has_few_words,
};
