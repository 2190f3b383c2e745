//! Instructions appended to the code of a unit in a segment: constants, operands, operators.
#![tactic(auto)]

mod constants;
mod operands;
mod operators;
mod puts;

pub use constants::{push_double, push_number, push_text, push_word};
pub use operands::{Access, address_at, index_to_x, load_at, mode_of};
pub use operators::{
    Class, compare, convert, extract, operate_on_one, operate_on_two, pass, shift_value,
};
pub use puts::{branch, immediate, instruct, lay, operate, operate_all, shift_by};
pub use spl_spots;
