//! What a fetched word does, and what the step answers by it.
//!
//! A word that is no call leaves the phase as it is. So nothing of it is written for most of the words that a program runs.
ghost use Rattle.std.specs.Prelude.{◌≡◌, ℕ, List, IsTrue, length, slice_get};
ghost use Rattle.hp_instr.specs.declared.groups.Group.TheVariants.{Stack as Paired};
ghost use Rattle.hp_instr.specs.Given.{has_word};
ghost use Rattle.hp_instr.specs.Groups.{group};
ghost use Rattle.hp_instr.specs.Instructions.{instruction};
ghost use Rattle.hp_tos.specs.StackView.{seen};
ghost use Rattle.hp_flat.specs.Step.{row};
ghost use Rattle.hp_calls.specs.declared.phases.Phase.TheVariants.{Ready};
ghost use Rattle.hp_calls.specs.Transfers.{IsReady};
ghost use Rattle.hp_cpu.specs.Acts.{Acts};
ghost use Rattle.hp_cpu.specs.Came.{Came};
ghost use Rattle.hp_cpu.specs.Answers.{CanBeServed, done, phase_left, stepped};

use crate::cpu::Stepped;
use crate::pairs::{pair, stack_word};
use crate::transfers::transfer_at_left;
use crate::words::word_at_left;
use hp_calls::{Called, Phase};
use hp_instr::{Group, Instr, decode, group_of};
use hp_program::CodeStore;
use hp_session::Regs;
use hp_tos::Stack;
use hp_word::Trap;

/// What a step answers to a word that leaves no transfer under way.
#[inline(always)]
fn plain(answer: Result<(), Trap>) -> Stepped
    ensures { result ≡ stepped (done answer) }
{
    match answer {
        Ok(()) => Stepped::Went,
        Err(trap) => Stepped::Trapped(trap),
    }
}

/// What it answers to a call or a return, which leaves its phase.
fn answered(answer: Result<Called, Trap>, phase: &mut Phase) -> Stepped
    ensures value { result ≡ stepped answer }
    ensures phase { phase.new ≡ phase_left answer phase.old }
{
    match answer {
        Ok(Called::Went(next)) => {
            *phase = next;
            Stepped::Went
        }
        Ok(Called::Gate(intrinsic)) => Stepped::Gate(intrinsic),
        Err(trap) => Stepped::Trapped(trap),
    }
}

/// One operation of a pair.
#[inline]
fn pair_of(i: Instr, regs: &mut Regs, stack: &mut Stack) -> Result<(), Trap>
    requires { group i ≡ Paired }
    ensures { (program : List (List ℕ)) → Acts program (row program i) i regs.old (seen stack.old) (done result) regs.new (seen stack.new) }
{
    match i {
        Instr::Pair { left, right } => pair(left, right, regs, stack),
        _ => Err(Trap::Illegal),
    }
}

/// A word of any major but 0, by its instruction.
#[inline(always)]
fn by_instruction<C: CodeStore>(
    i: Instr,
    segments: u8,
    regs: &mut Regs,
    stack: &mut Stack,
    phase: &mut Phase,
    code: &C,
) -> Stepped
    requires { IsTrue (has_word i) }
    ensures came { (program : List (List ℕ)) → length program ≡ segments → slice_get program regs.old.seg ≡ C.held code.now regs.old.seg → phase.old ≡ Ready
        → Came program i regs.old (seen stack.old) result regs.new (seen stack.new) phase.new }
    ensures ready { CanBeServed result (seen stack.new) }
{
    match group_of(i) {
        Group::Call => answered(transfer_at_left(i, segments, regs, stack, code), phase),
        Group::Stack => plain(pair_of(i, regs, stack)),
        _ => plain(word_at_left(i, regs, stack, code)),
    }
}

/// What a word does over registers and a stack, where no transfer is under way, in a program with so many segments whose current
/// one the store holds.
#[inline(always)]
pub(crate) fn act<C: CodeStore>(
    w: u16,
    segments: u8,
    regs: &mut Regs,
    stack: &mut Stack,
    phase: &mut Phase,
    code: &C,
) -> Stepped
    ensures came { (program : List (List ℕ)) → length program ≡ segments → slice_get program regs.old.seg ≡ C.held code.now regs.old.seg → phase.old ≡ Ready
        → Came program (instruction w) regs.old (seen stack.old) result regs.new (seen stack.new) phase.new }
    ensures ready { CanBeServed result (seen stack.new) }
{
    if w < 4096 {
        plain(stack_word(w, regs, stack))
    } else {
        by_instruction(decode(w), segments, regs, stack, phase, code)
    }
}
