//! What the code of a body is made with: its names, where their words stand, and the entries that it may call.
#![tactic(auto)]

mod scopes;

pub use scopes::{Entries, Places, Scope};
