//! Calls of intrinsics, procedures and subroutines as statements that are covered: their code performs them, wherever it stands.
#![tactic(auto)]

mod laws;

pub use laws::covered_calls_perform;
