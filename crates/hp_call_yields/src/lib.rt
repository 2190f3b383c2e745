//! What steps of moves do, and what calls, returns, intrinsics and loops leave.
#![tactic(auto)]

mod laws;

pub use laws::{
    branches_yield, byte_comparisons_yield, byte_moves_yield, calls_yield, class_moves_yield,
    control_rows_are, intrinsics_yield, loops_yield, scans_yield, subroutine_calls_yield,
    word_moves_yield,
};
