//! What sources mean: names, rules, places and runs, as definitions, with their laws.
#![tactic(auto)]

mod laws;

pub use laws::{
    bounds_do_not_matter, ended_runs_stay, first_rules_are_broken, logs_only_grow,
    prints_only_grow, rule_kinds_are_kinds, sound_units_break_none, steps_go_on,
};
