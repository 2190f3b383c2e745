//! The rules of headings, and what names of parameters, of procedures and of intrinsics stand for by them.
#![tactic(auto)]

mod gates;
mod headings;
mod listings;
mod name_sets;

pub use gates::{intrinsic_named, intrinsic_sort};
pub use headings::{formals, heading, profile};
