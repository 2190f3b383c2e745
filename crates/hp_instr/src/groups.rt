//! Which instructions go together, and which codes are operations.
ghost use Rattle.std.specs.Prelude.{◌≡◌};
ghost use Rattle.hp_instr.specs.Groups.{group};
ghost use Rattle.hp_instr.specs.Fields.{is_op};

use crate::decoder::is_listed_op;
use crate::instruction::{Instr, Op};

/// What an instruction works on.
#[derive(Clone, Copy, Debug, PartialEq, Eq)]
pub enum Group {
    /// A pair of operations on the words at the top of the stack.
    Stack,
    /// Shifts, fields and immediate numbers, the window split or joined, X and counts of words: majors 1 and 2, and ADXI
    /// to SUBS of major 3.
    Field,
    /// Words in memory, code words, and branches, the short ones too.
    Reference,
    /// Moves, scans and the comparison of bytes: MOVE to CMPB of major 3.
    Move,
    /// PCAL, EXIT, SXIT and SCAL.
    Call,
    /// A word that is no instruction.
    Illegal,
}

/// The group of an instruction.
#[inline]
pub fn group_of(i: Instr) -> Group
    ensures { result ≡ group i }
{
    match i {
        Instr::Pair { .. } => Group::Stack,
        Instr::Shifted { .. } | Instr::Immediate { .. } => Group::Field,
        Instr::Control { which: 0..=3, .. } => Group::Call,
        Instr::Control { which: 4..=8, .. } => Group::Field,
        Instr::Control { .. } => Group::Move,
        Instr::Short { .. }
        | Instr::Memory { .. }
        | Instr::LoadCode { .. }
        | Instr::Branch { .. }
        | Instr::OnCode { .. }
        | Instr::Loop { .. } => Group::Reference,
        Instr::Illegal(_) => Group::Illegal,
    }
}

/// Whether an operation is one of those that are listed, so that a pair may have it.
#[inline]
#[tactic(auto, using(crate::proofs::RangeLemmas::op_below))]
pub fn is_op(op: Op) -> bool
    ensures { result ≡ is_op op.code }
{
    op.code < 64 && is_listed_op(op.code)
}
