//! The entries of a unit's modules, with the indexes of procedures and subroutines by name.
#![tactic(auto)]

mod modules;
mod walk;

pub use modules::ModuleEntries;
pub use walk::{UnitEntries, unit_entries};
