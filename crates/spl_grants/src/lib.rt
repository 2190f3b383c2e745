//! Grants: the room that a body needs is granted, or the machine traps, by the code at its entry.
#![tactic(auto)]

mod laws;

pub use laws::granted_pieces_grant;
