//! The rows of calls and returns.
ghost use Rattle.std.specs.Prelude.{◌≡◌, ◌<◌, ◌≤◌, ◌+◌, ◌∷◌, [], length, ℕ, unwrap_or, slice_get};
ghost use Rattle.hp_instr.specs.Labels.{label};
ghost use Rattle.hp_program.specs.Valid.{entries_of, label_of};
ghost use Rattle.hp_session.specs.State.{Does};
ghost use Rattle.hp_program.specs.Programs.{words_of};
ghost use Rattle.hp_call_rows.specs.CallRows.{current, label_at, flag, code_bits, code_of_bits, status, with_status, entered, called_through, called, subroutine_at, subroutine_called, marker_at, old_q, returned, exited, subroutine_left};
ghost use Rattle.hp_program.specs.Programs.{segments_of};

use crate::gate_rows::serve;
use hp_instr::{Label, read_label};
use hp_program::{Program, entry_count, label_word, segment_words};
use hp_session::{Place, Regs, Session};
use hp_word::{Code, Trap};

/// A bit of the status word.
#[inline]
fn flag(on: bool, place: u16) -> u16
    ensures { result ≡ flag on place }
{
    if on { place } else { 0 }
}

/// The bits of a condition code.
#[inline]
#[tactic(auto, unfolding(crate::specs::CallRows::code_bits))]
fn code_bits(code: Code) -> u16
    ensures value { result ≡ code_bits code }
    ensures bound { result ≤ 2 }
{
    match code {
        Code::Greater => 0b00,
        Code::Less => 0b01,
        Code::Equal => 0b10,
    }
}

/// The condition code of two bits.
#[inline]
#[tactic(auto, unfolding(crate::specs::CallRows::code_of_bits))]
fn code_of_bits(bits: u16) -> Code
    ensures { result ≡ code_of_bits bits }
{
    match bits {
        0b00 => Code::Greater,
        0b01 => Code::Less,
        _ => Code::Equal,
    }
}

/// The flags of a status word: user traps, R, overflow and carry.
#[inline]
fn flags(r: &Regs) -> u16
    ensures value { result ≡ flag r.now.traps 8192 + flag r.now.right 4096 + flag r.now.overflow 2048 + flag r.now.carry 1024 }
    ensures bound { result ≤ 15360 }
{
    flag(r.traps, 8192) + flag(r.right, 4096) + flag(r.overflow, 2048) + flag(r.carry, 1024)
}

/// The status word.
#[tactic(auto, unfolding(crate::specs::CallRows::status))]
fn status_of(r: &Regs) -> u16
    ensures { result ≡ status r.now }
{
    flags(r) + 256 * code_bits(r.code) + r.seg as u16
}

/// The registers with the status of a word.
#[tactic(auto, unfolding(crate::specs::CallRows::with_status))]
fn with_status(w: u16, r: Regs) -> Regs
    ensures { result ≡ with_status w r }
{
    Regs {
        traps: w / 8192 % 2 == 1,
        right: w / 4096 % 2 == 1,
        overflow: w / 2048 % 2 == 1,
        carry: w / 1024 % 2 == 1,
        code: code_of_bits(w / 256 % 4),
        seg: (w % 256) as u8,
        ..r
    }
}

/// What a call leaves for its return.
#[derive(Clone, Copy, Debug, PartialEq, Eq)]
pub struct Frame {
    /// X.
    pub x: u16,
    /// The offset of the word after the call.
    pub offset: u16,
    /// The status word.
    pub status: u16,
    /// How far the new Q is above the old one.
    pub delta: u16,
}

/// The label of an entry of the current segment.
#[tactic(auto, unfolding(crate::specs::CallRows::label_at))]
fn label_at(session: &Session, program: &Program, n: u8) -> Result<Label, Trap>
    ensures { result ≡ label_at (segments_of program.now) n session.now }
{
    let words = segment_words(program, session.regs.seg);
    if n == 0 || entry_count(words) < n as u16 {
        return Err(Trap::BadEntry);
    }
    Ok(read_label(label_word(words, n as u16)))
}

/// Pushes the marker, and goes to the procedure.
#[tactic(auto, unfolding(crate::specs::CallRows::entered, crate::specs::CallRows::marker))]
fn enter(session: &mut Session, seg: u8, offset: u16) -> Result<(), Trap>
    ensures { Does (entered seg offset session.old) session.old result session.new }
{
    let new_q = session.words() + 3;
    let regs = session.regs;
    let delta = ((new_q + 65536 - regs.q as usize) % 65536) as u16;
    session.push_all(&[regs.x, regs.p.wrapping_add(1), status_of(&regs), delta])?;
    session.regs.q = new_q as u16;
    session.regs.seg = seg;
    session.go_to(offset);
    Ok(())
}

/// A call through a label.
#[tactic(auto, unfolding(crate::specs::CallRows::called_through))]
fn call_through(session: &mut Session, program: &Program, label: Label) -> Result<(), Trap>
    ensures { Does (called_through (segments_of program.now) label session.old) session.old result session.new }
{
    match label {
        Label::Local(offset) => {
            let seg = session.regs.seg;
            enter(session, seg, offset)
        }
        Label::External { seg: 255, entry } => {
            serve(session, entry)?;
            session.pass();
            Ok(())
        }
        Label::External { seg, entry } => {
            enter(
                session,
                seg,
                label_word(segment_words(program, seg), entry as u16),
            )
        }
        Label::Bad(_) => Err(Trap::BadEntry),
    }
}

/// PCAL.
#[tactic(auto, unfolding(crate::specs::CallRows::called))]
pub fn call(session: &mut Session, program: &Program, n: u8) -> Result<(), Trap>
    ensures { Does (called (segments_of program.now) n session.old) session.old result session.new }
{
    if session.split {
        return Err(Trap::Mode);
    }
    let label = label_at(session, program, n)?;
    call_through(session, program, label)
}

/// SCAL.
#[tactic(auto, unfolding(crate::specs::CallRows::subroutine_called))]
pub fn call_subroutine(session: &mut Session, program: &Program, n: u8) -> Result<(), Trap>
    ensures { Does (subroutine_called (segments_of program.now) n session.old) session.old result session.new }
{
    let Label::Local(offset) = label_at(session, program, n)? else {
        return Err(Trap::BadEntry);
    };
    session.push(session.regs.p.wrapping_add(1))?;
    session.go_to(offset);
    Ok(())
}

/// The marker whose last word Q addresses.
#[tactic(auto, unfolding(crate::specs::CallRows::marker_at))]
fn marker(session: &Session) -> Result<Frame, Trap>
    ensures { result ≡ marker_at session.now.regs.q session.now }
{
    let q = session.regs.q;
    let x = session.read_at(Place::Stack(q.wrapping_sub(3)))?;
    let offset = session.read_at(Place::Stack(q.wrapping_sub(2)))?;
    let status = session.read_at(Place::Stack(q.wrapping_sub(1)))?;
    let delta = session.read_at(Place::Stack(q))?;
    Ok(Frame {
        x,
        offset,
        status,
        delta,
    })
}

/// A return over a marker.
#[tactic(auto, unfolding(crate::specs::CallRows::returned))]
fn return_over(session: &mut Session, program: &Program, n: u8, marker: Frame) -> Result<(), Trap>
    ensures { Does (returned (segments_of program.now) n marker session.old) session.old result session.new }
{
    if program.segments.len() <= (marker.status % 256) as usize {
        return Err(Trap::BadEntry);
    }
    let q = session.regs.q;
    let gone = n as u16 + 3;
    let old_q = q.wrapping_sub(marker.delta);
    if q < gone || q - gone <= old_q {
        return Err(Trap::StackUnderflow);
    }
    session.stack.truncate((q - gone) as usize);
    session.regs = Regs {
        x: marker.x,
        q: old_q,
        p: marker.offset,
        ..with_status(marker.status, session.regs)
    };
    Ok(())
}

/// EXIT.
#[tactic(auto, unfolding(crate::specs::CallRows::exited))]
pub fn exit(session: &mut Session, program: &Program, n: u8) -> Result<(), Trap>
    ensures { Does (exited (segments_of program.now) n session.old) session.old result session.new }
{
    if session.split {
        return Err(Trap::Mode);
    }
    let marker = marker(session)?;
    return_over(session, program, n, marker)
}

/// SXIT.
#[tactic(auto, unfolding(crate::specs::CallRows::subroutine_left))]
pub fn leave_subroutine(session: &mut Session, n: u8) -> Result<(), Trap>
    ensures { Does (subroutine_left n session.old) session.old result session.new }
{
    let count = n as usize + 1;
    session.need(count)?;
    let offset = session.word(0);
    session.delete(count);
    session.go_to(offset);
    Ok(())
}
