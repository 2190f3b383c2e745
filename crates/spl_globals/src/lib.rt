//! The initial data words of a program.
#![tactic(auto)]

mod areas;
mod globals;
mod owns;
mod stored;
mod units;

pub use areas::{Areas, behind_globals, behind_owns, first_areas};
pub use globals::data_words;
pub use spl_areas;
pub use spl_initials::spl_places;
pub use stored::Pass;
