//! The branches of majors 5 and 12: BR, BCC, TBA and MTBA.
ghost use Rattle.std.specs.Prelude.{◌≡◌, ◌<◌, ◌≤◌, length};
ghost use Rattle.hp_session.specs.State.{Does};
ghost use Rattle.hp_memory_rows.specs.MemoryRows.{branched, is_named, branched_on_code, goes_on, looped, loop_tested, loop_stepped};
ghost use Rattle.hp_program.specs.Programs.{segments_of};

use crate::code_words::read_code;
use crate::memory_rows::settle_at;
use hp_program::Program;
use hp_session::{Place, Session, displacement, signed_word};
use hp_word::{Code, Trap};

/// Whether the mask of a BCC names the code.
#[tactic(auto, unfolding(crate::specs::MemoryRows::is_named))]
fn named(mask: u8, code: Code) -> bool
    ensures { result ≡ is_named mask code }
{
    match code {
        Code::Greater => mask / 4 % 2 == 1,
        Code::Equal => mask / 2 % 2 == 1,
        Code::Less => mask % 2 == 1,
    }
}

/// Whether a loop's variable has not passed its limit.
#[tactic(auto, unfolding(crate::specs::MemoryRows::goes_on))]
fn going_on(value: u16, step: u16, limit: u16) -> bool
    ensures { result ≡ goes_on value step limit }
{
    if signed_word(step) < 0 {
        signed_word(limit) <= signed_word(value)
    } else {
        signed_word(value) <= signed_word(limit)
    }
}

/// BR.
#[tactic(auto, unfolding(crate::specs::MemoryRows::branched))]
pub fn branch(
    session: &mut Session,
    program: &Program,
    i: bool,
    back: bool,
    d: u8,
) -> Result<(), Trap>
    ensures { Does (branched (segments_of program.now) i back d session.old) session.old result session.new }
{
    let target = displacement(back, d, session.regs.p);
    if i {
        let word = read_code(session, program, target)?;
        session.go_to(target.wrapping_add(word));
    } else {
        session.go_to(target);
    }
    Ok(())
}

/// BCC.
pub fn branch_on_code(session: &mut Session, mask: u8, back: bool, d: u8) -> Result<(), Trap>
    ensures { Does (branched_on_code mask back d session.old) session.old result session.new }
{
    session.branch_where(named(mask, session.regs.code), back, d);
    Ok(())
}

/// Branches where a loop is to go on, and else deletes its three words.
#[tactic(auto, unfolding(crate::specs::MemoryRows::looped))]
fn loop_where(session: &mut Session, on: bool, back: bool, d: u8)
    ensures { session.new ≡ looped on back d session.old }
{
    if !on {
        session.delete(3);
    }
    session.branch_where(on, back, d);
}

/// TBA.
#[tactic(auto, unfolding(crate::specs::MemoryRows::loop_tested))]
pub fn test_loop(session: &mut Session, back: bool, d: u8) -> Result<(), Trap>
    ensures { Does (loop_tested back d session.old) session.old result session.new }
{
    session.need(3)?;
    let value = session.read_at(Place::Stack(session.word(2)))?;
    let on = going_on(value, session.word(1), session.word(0));
    loop_where(session, on, back, d);
    Ok(())
}

/// MTBA.
#[tactic(auto, unfolding(crate::specs::MemoryRows::loop_stepped))]
pub fn step_loop(session: &mut Session, back: bool, d: u8) -> Result<(), Trap>
    ensures { Does (loop_stepped back d session.old) session.old result session.new }
{
    session.need(3)?;
    let variable = Place::Stack(session.word(2));
    let (step, limit) = (session.word(1), session.word(0));
    let sum = hp_word::add(session.read_at(variable)?, step);
    settle_at(session, variable, sum)?;
    loop_where(session, going_on(sum.value, step, limit), back, d);
    Ok(())
}
