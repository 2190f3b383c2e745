//! Names whose places are counted from the top of the stack, stored by their code wherever it stands.
#![tactic(auto)]

mod laws;

pub use laws::places_seen_are_stored;
