//! IF, CASE, WHILE and DO, performed by their code wherever it stands.
#![tactic(auto)]

mod laws;

pub use laws::{cases_perform, choices_perform, code_choices_perform, loops_perform};
