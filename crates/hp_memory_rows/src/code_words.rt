//! Words of the current segment, read as data.
ghost use Rattle.std.specs.Prelude.{◌≡◌};
ghost use Rattle.hp_program.specs.Programs.{segments_of};
ghost use Rattle.hp_memory_rows.specs.MemoryRows.{code_read};

use hp_program::{Program, fetch};
use hp_session::Session;
use hp_word::Trap;

/// A word of the current segment, read as data.
#[tactic(auto, unfolding(crate::specs::MemoryRows::code_read))]
pub(crate) fn read_code(session: &Session, program: &Program, offset: u16) -> Result<u16, Trap>
    ensures { result ≡ code_read (segments_of program.now) offset session.now }
{
    match fetch(program, session.regs.seg, offset) {
        None => Err(Trap::CodeBounds),
        Some(word) => Ok(word),
    }
}
