//! The marks of labels: each has its own, and stands before the code of its body.
#![tactic(auto)]

mod laws;

pub use laws::labels_lead;
