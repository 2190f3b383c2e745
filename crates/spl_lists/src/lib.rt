//! The rules of declarations, as they are checked along their lists.
#![tactic(auto)]

mod data;
mod listed_names;
mod lists;
mod named_sums;
mod own;

pub use data::{Data, items};
pub use listed_names::{intrinsics, labels};
pub use lists::{declaration, declarations, procedure_name, subroutine_name};
pub use named_sums::equates;
pub use own::{Around, again, declare, parameters, seen};
pub use spl_profiles::{formals, heading, profile};
