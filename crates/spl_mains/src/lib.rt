//! Bodies all of whose statements are covered, followed where their code stands.
#![tactic(auto)]

mod laws;

pub use laws::{covered_bodies_follow, covered_inners_follow, covered_main_bodies_follow};
pub use spl_followed::{followed_programs_carry, main_bodies_follow};
