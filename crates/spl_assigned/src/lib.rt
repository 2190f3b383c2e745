//! Assignments of what is covered, along the tree, and of what intrinsics answer with its condition code.
#![tactic(auto)]

mod laws;

pub use laws::assignments_perform;
