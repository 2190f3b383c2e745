//! Links of calls lead to the code of the procedures that they name.
#![tactic(auto)]

mod laws;

pub use laws::links_find;
