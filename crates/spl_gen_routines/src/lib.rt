//! The code of whole bodies: procedures with their subroutines, and main bodies, appended to the code of their module.
#![tactic(auto)]

mod bodies;
mod inners;
mod rooms;
mod routines;
mod statements;

pub use inners::{Around, inner_count, subroutine};
pub use rooms::room_at;
pub use routines::{Declared, listed_items, main_body, routine};
pub use statements::body_statements;
