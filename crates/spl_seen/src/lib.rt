//! What the statements of each body may count on, in units that break no rule and pass no limit.
#![tactic(auto)]

mod laws;

pub use laws::{
    grounds_are_seen, inner_uses_are_allowed, main_bodies_are_grounded, outer_uses_are_allowed,
    routines_are_grounded, subroutines_are_grounded, subroutines_pass_none,
};
