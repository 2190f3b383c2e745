//! What the lines of a job say so far.
ghost use Rattle.std.specs.Prelude.{◌≤◌, length};

use crate::job::Text;
use job_lines::{Place, Settings};
use mpe_session::Seat;

/// What the lines so far say.
#[derive(Drop)]
pub(crate) struct Reading {
    /// Where the next line stands.
    pub(crate) place: Place,
    pub(crate) settings: Settings,
    pub(crate) stats: bool,
    pub(crate) programs: Vec<Text>,
    pub(crate) seats: Vec<Seat>,
    ghost few: { length programs.items ≤ 16 },
}
