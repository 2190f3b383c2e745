//! What modules of units are but for their words: the same, whichever form each branch takes.
#![tactic(auto)]

mod laws;

pub use laws::{
    first_faults_agree, modules_have_one_outline, none_is_built, one_fault_is_told,
    segments_have_one_count,
};
