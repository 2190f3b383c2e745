//! Words of major 0: two operations, one a step.
ghost use Rattle.std.specs.Prelude.{◌≡◌, ◌<◌, ◌&&◌, ℕ, List, if◌then◌else◌};
ghost use Rattle.hp_instr.specs.Fields.{is_op};
ghost use Rattle.hp_instr.specs.declared.instruction.Instr.TheVariants.{Pair};
ghost use Rattle.hp_instr.specs.Instructions.{instruction};
ghost use Rattle.hp_tos.specs.StackView.{seen};
ghost use Rattle.hp_rows.specs.Performs.{Performs};
ghost use Rattle.hp_stackops.specs.StackUses.{used_by};
ghost use Rattle.hp_flat.specs.Step.{pair_row, row};
ghost use Rattle.hp_cpu.specs.Acts.{Acts};
ghost use Rattle.hp_cpu.specs.Answers.{done};

use hp_instr::{Op, is_op};
use hp_rows::pass;
use hp_session::Regs;
use hp_stackops::stack_op;
use hp_tos::Stack;
use hp_word::Trap;

/// One operation of a pair. With R at 1 it is the right one, after which P passes the word. Else it is the left one: then R is
/// set, unless the right one is NOP, which is no step of its own.
#[tactic(auto, unfolding(hp_flat::specs::Step::pair_row))]
#[inline(always)]
fn half(left: Op, right: Op, regs: &mut Regs, stack: &mut Stack) -> Result<(), Trap>
    ensures { Performs (pair_row left right) (used_by (if regs.old.right then right else left).code) regs.old (seen stack.old) result regs.new (seen stack.new) }
{
    if regs.right {
        stack_op(right, regs, stack)?;
        pass(regs);
    } else if right.code == 0 {
        stack_op(left, regs, stack)?;
        pass(regs);
    } else {
        stack_op(left, regs, stack)?;
        regs.right = true;
    }
    Ok(())
}

/// One operation of a pair, as the step of an instruction.
#[inline(always)]
pub(crate) fn pair(left: Op, right: Op, regs: &mut Regs, stack: &mut Stack) -> Result<(), Trap>
    ensures { (program : List (List ℕ)) → Acts program (row program (Pair left right)) (Pair left right) regs.old (seen stack.old) (done result) regs.new (seen stack.new) }
{
    half(left, right, regs, stack)
}

/// Whether both operations are listed, so that a pair may have them.
#[inline(always)]
fn are_listed(left: Op, right: Op) -> bool
    ensures { result ≡ (is_op left.code && is_op right.code) }
{
    is_op(left) && is_op(right)
}

/// One operation of a word of major 0, straight from the word: it is below 4,096, with the left operation in its upper six bits
/// and the right one in its lower six. Most words that a program runs are of this kind, so no instruction is made of them.
#[inline(always)]
pub(crate) fn stack_word(w: u16, regs: &mut Regs, stack: &mut Stack) -> Result<(), Trap>
    requires { w < 4096 }
    ensures { (program : List (List ℕ)) → Acts program (row program (instruction w)) (instruction w) regs.old (seen stack.old) (done result) regs.new (seen stack.new) }
{
    let left = Op {
        code: (w / 64) as u8,
    };
    let right = Op {
        code: (w % 64) as u8,
    };
    if !are_listed(left, right) {
        return Err(Trap::Illegal);
    }
    pair(left, right, regs, stack)
}
