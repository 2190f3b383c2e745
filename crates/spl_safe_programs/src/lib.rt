//! Runs of programs that break no rule, and are linked without a fault, are never lost.
#![tactic(auto)]

mod laws;

pub use laws::sound_programs_are_never_lost;
pub use spl_sound_programs::sound_programs_carry;
