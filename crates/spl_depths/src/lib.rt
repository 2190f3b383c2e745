//! The words that wait while parts of bodies are worked out: the depths of bodies, and how far beneath the top names are used.
#![tactic(auto)]

mod depths;
mod effects;
mod expressions;
mod flow;
mod laws;
mod parts;
mod reach;
mod subroutines;
mod uses;
mod words;

pub use depths::{depth, subroutine_depth};
pub use laws::{first_use_is_found, headings_have_few_words};
pub use subroutines::{heading_limits, subroutine_limits};
