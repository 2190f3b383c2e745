//! Nodes linked by their numbers: two rings, and a chain of those that are free.
#![tactic(auto)]

mod moves;
mod node;
mod rings;
mod setters;

pub use moves::{occupy, release, renew};
pub use node::{NONE, Node};
pub use rings::{free_node, link_last, link_place, right_at, unlink_place, unlink_use};
