//! What names stand for, the kinds of expressions, and the first fault so far, for a checker of rules.
#![tactic(auto)]

mod constants;
mod gates;
mod kinds;
mod operands;
mod profiles;
mod report;
mod sorts;
mod tables;

pub use constants::{constant_value, in_range, is_field, text_value};
pub use gates::Gate;
pub use kinds::{fits, same_sort};
pub use operands::Operand;
pub use profiles::{Formal, Profile};
pub use report::{Fault, Report};
pub use sorts::{Sort, callable, variable_kind};
pub use tables::{Names, Table};
