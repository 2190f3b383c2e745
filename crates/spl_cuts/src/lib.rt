//! How the text of a unit is cut into tokens, and the laws of it.
#![tactic(auto)]

mod faults;
mod laws;

pub use faults::{LexFault, LexKind};
pub use laws::{
    bad_pieces_are_unique, cuts_are_read, cuts_are_sound, cuts_are_unique, cuts_are_whole,
    ended_faults_are_first, faults_are_first, faults_are_read, faults_are_unique, faults_end,
    faults_stand, segments_are_few, texts_are_cut,
};
