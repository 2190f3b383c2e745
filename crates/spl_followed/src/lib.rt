//! A program whose session follows the run of its units carries them.
#![tactic(auto)]

mod laws;

pub use laws::{
    followed_programs_carry, logs_agree, machine_follows_source, main_bodies_follow,
    sessions_open_as_runs, source_follows_machine,
};
