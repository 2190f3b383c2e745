//! Calls and returns of procedures and subroutines over a stack whose top words may stand in registers. A call into another
//! segment, and every return of a procedure, is a transfer in two parts, so that the segment may be brought in between.
#![tactic(auto)]

mod at_once;
mod calls;
mod markers;
mod phases;
mod subroutines;
mod tables;
mod transfers;

pub use at_once::{call_at_once, exit_at_once};
pub use calls::{exit, pcal};
pub use phases::{Called, Phase};
pub use subroutines::{scal, sxit};
pub use transfers::finish_transfer;
