//! Units that break no rule, as the compiler takes them.
#![tactic(auto)]

mod units;

pub use units::Sound;
