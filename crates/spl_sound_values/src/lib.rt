//! Expressions that break no rule are covered, where what is known of their names is so.
#![tactic(auto)]

mod laws;

pub use laws::sound_values_are_covered;
