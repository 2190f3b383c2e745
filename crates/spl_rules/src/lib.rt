//! The rules of sources as the cases of a relation over parts, held against the list of all faults.
#![tactic(auto)]

mod laws;

pub use laws::{
    first_rules_are_first, misused_names_break, rules_are_listed, sound_units_keep_all,
};
