//! Calls and returns of procedures and subroutines, and the intrinsics behind the gate.
#![tactic(auto)]

mod call_rows;
mod gate_rows;
mod stack_bytes;

pub use call_rows::{call, call_subroutine, exit, leave_subroutine};
pub use stack_bytes::{
    bytes_of_length, feed_of, first_bytes, in_unit, line_at, signed_double, signed_number,
};
