//! The words of a program as what leads from one place to the next: pairs, whole words, branches in both forms, and calls.
#![tactic(auto)]

mod laws;

pub use laws::{
    branches_lead, far_branches_lead, far_jumps_lead, left_operations_lead, procedure_calls_lead,
    right_operations_lead, single_operations_lead, subroutine_calls_lead, whole_words_lead,
};
