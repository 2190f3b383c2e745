//! What a word does that is no pair and no call: its instruction goes to the crate of its group.
ghost use Rattle.std.specs.Prelude.{◌≡◌, ◌≢◌, ℕ, List, IsTrue, slice_get};
ghost use Rattle.hp_instr.specs.declared.groups.Group.TheVariants.{Stack as Paired, Field, Reference, Move, Call};
ghost use Rattle.hp_instr.specs.Given.{has_word};
ghost use Rattle.hp_instr.specs.Groups.{group};
ghost use Rattle.hp_tos.specs.StackView.{seen};
ghost use Rattle.hp_flat.specs.Step.{row, word_row};
ghost use Rattle.hp_moves.specs.MoveSteps.{as_step};
ghost use Rattle.hp_cpu.specs.Acts.{Acts};
ghost use Rattle.hp_cpu.specs.Answers.{done};
ghost use Rattle.hp_cpu.specs.Restored.{restored};

use hp_fields::field_op;
use hp_instr::{Group, Instr, group_of};
use hp_memref::memory_op;
use hp_moves::{MoveStep, move_op};
use hp_program::CodeStore;
use hp_session::Regs;
use hp_tos::Stack;
use hp_word::Trap;

/// What came of one element of a move.
#[inline]
fn moved(answer: Result<MoveStep, Trap>) -> Result<(), Trap>
    ensures { result ≡ as_step answer }
{
    match answer {
        Ok(_) => Ok(()),
        Err(trap) => Err(trap),
    }
}

/// Shifts, fields, immediate numbers and counts of words.
#[inline(always)]
fn with_field(i: Instr, regs: &mut Regs, stack: &mut Stack) -> Result<(), Trap>
    requires instruction { IsTrue (has_word i) }
    requires group { group i ≡ Field }
    ensures { (program : List (List ℕ)) → Acts program (word_row program i) i regs.old (seen stack.old) (done result) regs.new (seen stack.new) }
{
    field_op(i, regs, stack)
}

/// Words in memory and code, and branches.
#[inline(always)]
fn with_reference<C: CodeStore>(
    i: Instr,
    regs: &mut Regs,
    stack: &mut Stack,
    code: &C,
) -> Result<(), Trap>
    requires { group i ≡ Reference }
    ensures { (program : List (List ℕ)) → slice_get program regs.old.seg ≡ C.held code.now regs.old.seg
        → Acts program (word_row program i) i regs.old (seen stack.old) (done result) regs.new (seen stack.new) }
{
    memory_op(i, regs, stack, code)
}

/// One element of a move.
fn with_move<C: CodeStore>(
    i: Instr,
    regs: &mut Regs,
    stack: &mut Stack,
    code: &C,
) -> Result<(), Trap>
    requires { group i ≡ Move }
    ensures { (program : List (List ℕ)) → slice_get program regs.old.seg ≡ C.held code.now regs.old.seg
        → Acts program (word_row program i) i regs.old (seen stack.old) (done result) regs.new (seen stack.new) }
{
    moved(move_op(i, regs, stack, code))
}

/// An instruction that is done whole, where R is 0.
#[inline(always)]
fn whole_word<C: CodeStore>(
    i: Instr,
    regs: &mut Regs,
    stack: &mut Stack,
    code: &C,
) -> Result<(), Trap>
    requires { IsTrue (has_word i) }
    ensures { (program : List (List ℕ)) → slice_get program regs.old.seg ≡ C.held code.now regs.old.seg → group i ≢ Paired → group i ≢ Call
        → Acts program (word_row program i) i regs.old (seen stack.old) (done result) regs.new (seen stack.new) }
{
    match group_of(i) {
        Group::Field => with_field(i, regs, stack),
        Group::Reference => with_reference(i, regs, stack, code),
        Group::Move => with_move(i, regs, stack, code),
        Group::Stack | Group::Call | Group::Illegal => Err(Trap::Illegal),
    }
}

/// R as it was before a word that was not done.
#[inline(always)]
fn restore(answer: Result<(), Trap>, right: bool, regs: &mut Regs)
    ensures { regs.new ≡ restored (done answer) right regs.old }
{
    if answer.is_err() {
        regs.right = right;
    }
}

/// An instruction that is done whole, with R cleared first. A trap leaves R as it was.
#[inline(always)]
pub(crate) fn word_at_left<C: CodeStore>(
    i: Instr,
    regs: &mut Regs,
    stack: &mut Stack,
    code: &C,
) -> Result<(), Trap>
    requires { IsTrue (has_word i) }
    ensures { (program : List (List ℕ)) → slice_get program regs.old.seg ≡ C.held code.now regs.old.seg → group i ≢ Paired → group i ≢ Call
        → Acts program (row program i) i regs.old (seen stack.old) (done result) regs.new (seen stack.new) }
{
    let right = regs.right;
    regs.right = false;
    let answer = whole_word(i, regs, stack, code);
    restore(answer, right, regs);
    answer
}
