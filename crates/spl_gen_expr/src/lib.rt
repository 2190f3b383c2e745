//! The code of expressions and conditions, appended to the code of a unit in a segment.
#![tactic(auto)]

mod calls;
mod expressions;
mod generator;
mod marks;
mod texts;
mod words;

pub use expressions::{named, reference, write};
pub use generator::{gen_condition, gen_expr};
pub use marks::{Aim, lead, relate, set_mark, two_marks};
pub use spl_code_scopes::{Entries, Places, Scope};
pub use texts::push_text_offset;
pub use words::small_constant;
