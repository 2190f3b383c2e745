//! Variables of any kind by their own words, read and stored by their code wherever it stands.
#![tactic(auto)]

mod laws;

pub use laws::{own_words_are_assigned, own_words_simulate};
