//! The scopes of bodies, made level by level along the declarations of units.
#![tactic(auto)]

mod laws;
mod levels;
mod places;
mod results;

pub use laws::{
    main_scopes_are_found, programs_are_walked, results_are_found, routine_scopes_are_found,
    units_are_walked,
};
pub use levels::{Level, declare, inner_level, routine_level, scope, unit_level};
pub use results::{BodyResult, Results, inner_result, routine_result};
pub use spl_code_scopes;
