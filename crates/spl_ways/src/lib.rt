//! Where the calls of a program's modules lead.
#![tactic(auto)]

mod laws;

pub use laws::{define_entries_lead, gate_calls_lead, main_entries_start, module_calls_lead};
