//! The marker of a procedure's call: X, the offset of the word after the call, the status, and how far the new Q is above the
//! old one. Q addresses the last of the four words.
ghost use Rattle.std.specs.Prelude.{◌≡◌, ◌≤◌, ◌+◌, ◌-◌, ◌∷◌, [], false, OnOk, OnErr, MatchResult, Ok, Err, length};
ghost use Rattle.hp_session.specs.State.{Machine, wrapped};
ghost use Rattle.hp_session.specs.declared.registers.Regs.{Regs};
ghost use Rattle.hp_call_rows.specs.CallRows.{flag, marker_at, status, with_status};
ghost use Rattle.hp_tos.specs.StackView.{seen};
ghost use Rattle.hp_tos.specs.Steps.{pushed_together};
ghost use Rattle.hp_rows.specs.Standing.{standing};
ghost use Rattle.hp_rows.specs.Moves.{allowed};

use hp_rows::{push_all, read_at};
use hp_session::{Place, Regs};
use hp_tos::Stack;
use hp_word::{Code, Trap};

/// What a call has left for its return.
#[derive(Clone, Copy)]
pub(crate) struct Marker {
    pub x: u16,
    /// The offset to return to, in words from the segment's start.
    pub offset: u16,
    pub status: u16,
    /// How far Q is above that of the caller.
    pub delta: u16,
}

/// A bit of the status word.
#[inline]
fn flag(on: bool, place: u16) -> u16
    ensures { result ≡ flag on place }
{
    if on { place } else { 0 }
}

/// The flags of a status word: user traps, R, overflow and carry.
#[inline]
fn flags(regs: &Regs) -> u16
    ensures value { result ≡ flag regs.now.traps 8192 + flag regs.now.right 4096 + flag regs.now.overflow 2048 + flag regs.now.carry 1024 }
    ensures bound { result ≤ 15360 }
{
    flag(regs.traps, 8192)
        + flag(regs.right, 4096)
        + flag(regs.overflow, 2048)
        + flag(regs.carry, 1024)
}

/// The status word of the registers.
#[tactic(auto, unfolding(hp_call_rows::specs::CallRows::status, hp_call_rows::specs::CallRows::code_bits))]
fn status_of(regs: &Regs) -> u16
    ensures { result ≡ status regs.now }
{
    let code = match regs.code {
        Code::Greater => 0,
        Code::Less => 256,
        Code::Equal => 512,
    };
    flags(regs) + code + regs.seg as u16
}

/// The registers with the status of a word; bits 0 and 1 of it are not looked at.
#[tactic(auto, unfolding(hp_call_rows::specs::CallRows::with_status, hp_call_rows::specs::CallRows::code_of_bits))]
pub(crate) fn with_status(w: u16, regs: Regs) -> Regs
    ensures { result ≡ with_status w regs }
{
    Regs {
        traps: w / 8192 % 2 == 1,
        right: w / 4096 % 2 == 1,
        overflow: w / 2048 % 2 == 1,
        carry: w / 1024 % 2 == 1,
        code: match w / 256 % 4 {
            0 => Code::Greater,
            1 => Code::Less,
            _ => Code::Equal,
        },
        seg: (w % 256) as u8,
        ..regs
    }
}

/// Pushes the marker of a call, and lets Q address its last word. R is cleared; segment and offset of P stay.
pub(crate) fn push_marker(regs: &mut Regs, stack: &mut Stack) -> Result<(), Trap>
    ensures value { result ≡ allowed 4 (seen stack.old) }
    ensures words { OnOk result (seen stack.new ≡ pushed_together (regs.old.x ∷ wrapped (regs.old.p + 1) ∷ status regs.old
        ∷ wrapped (length (seen stack.old).words + 3 + 65536 - regs.old.q) ∷ []) (seen stack.old)) }
    ensures registers { OnOk result (regs.new ≡ record regs.old { q = length (seen stack.old).words + 3; right = false }) }
    ensures err { OnErr result ((regs.new ≡ regs.old) × (stack.new ≡ stack.old)) }
{
    let q = stack.words() + 3;
    let offset = regs.p.wrapping_add(1);
    push_all(
        stack,
        &[regs.x, offset, status_of(regs), q.wrapping_sub(regs.q)],
    )?;
    regs.q = q;
    regs.right = false;
    Ok(())
}

/// The marker whose last word Q addresses.
#[tactic(auto, unfolding(hp_call_rows::specs::CallRows::marker_at))]
pub(crate) fn read_marker(q: u16, stack: &Stack) -> Result<Marker, Trap>
    ensures { (regs : Regs) (rest : Machine) → MatchResult result
        (λ k. marker_at q (standing regs (seen stack.now) rest) ≡ Ok (record { x = k.x; offset = k.offset; status = k.status; delta = k.delta }))
        (λ t. marker_at q (standing regs (seen stack.now) rest) ≡ Err t) }
{
    Ok(Marker {
        x: read_at(stack, Place::Stack(q.wrapping_sub(3)))?,
        offset: read_at(stack, Place::Stack(q.wrapping_sub(2)))?,
        status: read_at(stack, Place::Stack(q.wrapping_sub(1)))?,
        delta: read_at(stack, Place::Stack(q))?,
    })
}
