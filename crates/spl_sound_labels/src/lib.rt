//! Labels of units that break no rule: each stands once in its body.
#![tactic(auto)]

mod laws;

pub use laws::{sound_labels_stand_once, sound_subprograms_have_no_subroutines};
