//! The names that modules want are among those that the bodies of their units call.
#![tactic(auto)]

mod laws;

pub use laws::modules_want_what_is_called;
