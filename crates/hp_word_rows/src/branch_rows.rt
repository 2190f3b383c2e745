//! The rows of major 1: shifts and short branches.
ghost use Rattle.std.specs.Prelude.{◌≡◌, ◌<◌, ◌≤◌, length, Ok};
ghost use Rattle.hp_word.specs.Words.{signed};
ghost use Rattle.hp_session.specs.State.{Does, displaced, at_place, branching};
ghost use Rattle.hp_word_rows.specs.WordRows.{shift_of, shifting, branch_on_top, branch_on_x, range_code, is_equal, branch_on_range, branch_on_parity, short_branch};

use hp_instr::{shift, short};
use hp_session::{Session, displacement, signed_word};
use hp_word::{Code, Shift, Trap, shift_word};

/// The shift with a code.
#[tactic(auto, unfolding(crate::specs::WordRows::shift_of))]
pub fn shift_of(kind: u8) -> Shift
    ensures { result ≡ shift_of kind }
{
    match kind {
        shift::ASL => Shift::Asl,
        shift::ASR => Shift::Asr,
        shift::LSL => Shift::Lsl,
        shift::LSR => Shift::Lsr,
        shift::CSL => Shift::Csl,
        _ => Shift::Csr,
    }
}

/// Where X stands to the range from B to A.
#[tactic(auto, unfolding(crate::specs::WordRows::range_code))]
pub fn range(x: u16, b: u16, a: u16) -> Code
    ensures { result ≡ range_code x b a }
{
    if signed_word(x) < signed_word(b) {
        Code::Less
    } else if signed_word(a) < signed_word(x) {
        Code::Greater
    } else {
        Code::Equal
    }
}

/// A shift.
#[tactic(auto, unfolding(crate::specs::WordRows::shifting))]
pub fn shift_top(session: &mut Session, kind: u8, count: u8) -> Result<(), Trap>
    requires { count < 64 }
    ensures { Does (shifting kind count session.old) session.old result session.new }
{
    session.need(1)?;
    session.leave_coded(1, shift_word(shift_of(kind), session.word(0), count));
    Ok(())
}

/// IABZ and DABZ.
#[tactic(auto, unfolding(crate::specs::WordRows::branch_on_top))]
fn branch_on_top(session: &mut Session, w: u16, back: bool, d: u8) -> Result<(), Trap>
    requires { 1 ≤ length session.old.stack }
    ensures { Does (branch_on_top w back d session.old) session.old result session.new }
{
    session.leave(1, w);
    session.branch_where(w == 0, back, d);
    Ok(())
}

/// IXBZ and DXBZ.
#[tactic(auto, unfolding(crate::specs::WordRows::branch_on_x))]
fn branch_on_x(session: &mut Session, x: u16, back: bool, d: u8) -> Result<(), Trap>
    ensures { Does (branch_on_x x back d session.old) session.old result session.new }
{
    session.regs.x = x;
    session.branch_where(x == 0, back, d);
    Ok(())
}

/// CPRB.
#[tactic(auto, unfolding(crate::specs::WordRows::branch_on_range))]
fn branch_on_range(session: &mut Session, back: bool, d: u8) -> Result<(), Trap>
    requires { 2 ≤ length session.old.stack }
    ensures { Does (branch_on_range back d session.old) session.old result session.new }
{
    let code = range(session.regs.x, session.word(1), session.word(0));
    session.delete_coded(2, code);
    session.branch_where(matches!(code, Code::Equal), back, d);
    Ok(())
}

/// BRO and BRE.
#[tactic(auto, unfolding(crate::specs::WordRows::branch_on_parity))]
fn branch_on_parity(session: &mut Session, parity: u16, back: bool, d: u8) -> Result<(), Trap>
    requires { 1 ≤ length session.old.stack }
    ensures { Does (branch_on_parity parity back d session.old) session.old result session.new }
{
    let taken = session.word(0) % 2 == parity;
    session.delete(1);
    session.branch_where(taken, back, d);
    Ok(())
}

/// Branches where `taken`; no word is taken.
fn branch_on(session: &mut Session, taken: bool, back: bool, d: u8) -> Result<(), Trap>
    ensures { Does (Ok (branching taken back d session.old)) session.old result session.new }
{
    session.branch_where(taken, back, d);
    Ok(())
}

/// A short branch.
#[tactic(auto, unfolding(crate::specs::WordRows::short_branch))]
pub fn short_branch(session: &mut Session, test: u8, back: bool, d: u8) -> Result<(), Trap>
    ensures { Does (short_branch test back d session.old) session.old result session.new }
{
    let regs = session.regs;
    match test {
        short::IABZ => {
            session.need(1)?;
            let top = session.word(0);
            branch_on_top(session, top.wrapping_add(1), back, d)
        }
        short::DABZ => {
            session.need(1)?;
            let top = session.word(0);
            branch_on_top(session, top.wrapping_sub(1), back, d)
        }
        short::IXBZ => branch_on_x(session, regs.x.wrapping_add(1), back, d),
        short::DXBZ => branch_on_x(session, regs.x.wrapping_sub(1), back, d),
        short::CPRB => {
            session.need(2)?;
            branch_on_range(session, back, d)
        }
        short::BRO => {
            session.need(1)?;
            branch_on_parity(session, 1, back, d)
        }
        short::BRE => {
            session.need(1)?;
            branch_on_parity(session, 0, back, d)
        }
        short::BCY => branch_on(session, regs.carry, back, d),
        short::BNCY => branch_on(session, !regs.carry, back, d),
        short::BOV => branch_on(session, regs.overflow, back, d),
        short::BNOV => branch_on(session, !regs.overflow, back, d),
        _ => Err(Trap::Illegal),
    }
}
