//! Trees of declarations, and what stands listed in them, as the grammar has it.
#![tactic(auto)]

mod items;
mod trees;

pub use items::{pointers, with_values};
pub use trees::{
    all_in_segment, can_be_body, declared_data, equate, external, forward, intrinsic,
    is_subroutine, label, procedure, subroutine,
};
