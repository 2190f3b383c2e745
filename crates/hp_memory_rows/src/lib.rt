//! The instructions of majors 4 to 15, and the moves of major 3: they find a place, and load, store, branch or move.
#![tactic(auto)]

mod code_words;
mod jump_rows;
mod memory_rows;
mod move_rows;

pub use jump_rows::{branch, branch_on_code, step_loop, test_loop};
pub use memory_rows::{load_code, with_memory_operand};
pub use move_rows::{as_moved, is_of_class, move_element, nearer, onward};
