//! The lines of a job's text, and what each says at its place.
#![tactic(auto)]

mod commands;
mod lines;
mod names;
mod numbers;
mod place;
mod said;
mod settings;
mod sizes;

pub use commands::Command;
pub use lines::{capitals, next_line, same};
pub use names::program_name;
pub use numbers::number;
pub use place::Place;
pub use said::{LineKind, Said, command_said, kind_at};
pub use settings::{Setting, Settings};
pub use sizes::{Size, Sizes};
