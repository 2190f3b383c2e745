//! Short branches: on A, on X, on a range, and on the flags.
ghost use Rattle.std.specs.Prelude.{◌≡◌, ◌+◌, Ok};
ghost use Rattle.hp_session.specs.State.{branching, taking, word, wrapped};
ghost use Rattle.hp_word_rows.specs.WordRows.{branch_on_parity, branch_on_range, branch_on_top, branch_on_x, short_branch};
ghost use Rattle.hp_tos.specs.StackView.{seen};
ghost use Rattle.hp_rows.specs.Numbers.{uses};
ghost use Rattle.hp_rows.specs.Performs.{Performs};
ghost use Rattle.hp_memref.specs.References.{gone};
ghost use Rattle.hp_memref.specs.ReferenceUses.{short_uses};

use hp_instr::short;
use hp_rows::{delete_coded, need};
use hp_session::{Regs, displacement};
use hp_tos::Stack;
use hp_word::{Code, Trap};
use hp_word_rows::range;

/// Branches where `taken`, and else goes on past the word at P.
pub(crate) fn branch_where(regs: &mut Regs, taken: bool, back: bool, d: u8)
    ensures { regs.new ≡ gone taken back d regs.old }
{
    regs.p = if taken {
        displacement(back, d, regs.p)
    } else {
        regs.p.wrapping_add(1)
    };
    regs.right = false;
}

/// IABZ and DABZ: A plus a word, which is 1 or that of -1; a branch where the sum is 0.
#[tactic(auto, unfolding(hp_word_rows::specs::WordRows::branch_on_top))]
fn step_top(regs: &mut Regs, stack: &mut Stack, by: u16, back: bool, d: u8) -> Result<(), Trap>
    ensures { Performs (λ m. taking 1 m (branch_on_top (wrapped (word 0 m + by)) back d m)) (uses 1 1) regs.old (seen stack.old) result regs.new (seen stack.new) }
{
    need(stack, 1)?;
    let sum = stack.word(0).wrapping_add(by);
    stack.replace(1, &[sum]);
    branch_where(regs, sum == 0, back, d);
    Ok(())
}

/// IXBZ and DXBZ: the same with X.
#[tactic(auto, unfolding(hp_word_rows::specs::WordRows::branch_on_x))]
fn step_x(regs: &mut Regs, stack: &mut Stack, by: u16, back: bool, d: u8) -> Result<(), Trap>
    ensures { Performs (λ m. branch_on_x (wrapped (m.regs.x + by)) back d m) (uses 0 0) regs.old (seen stack.old) result regs.new (seen stack.new) }
{
    regs.x = regs.x.wrapping_add(by);
    branch_where(regs, regs.x == 0, back, d);
    Ok(())
}

/// CPRB: a branch where X is within the range from B to A. Both are deleted.
#[tactic(auto, unfolding(hp_word_rows::specs::WordRows::branch_on_range))]
fn branch_on_range(regs: &mut Regs, stack: &mut Stack, back: bool, d: u8) -> Result<(), Trap>
    ensures { Performs (λ m. taking 2 m (branch_on_range back d m)) (uses 2 0) regs.old (seen stack.old) result regs.new (seen stack.new) }
{
    need(stack, 2)?;
    let code = range(regs.x, stack.word(1), stack.word(0));
    delete_coded(regs, stack, 2, code);
    branch_where(regs, matches!(code, Code::Equal), back, d);
    Ok(())
}

/// BRO and BRE: a branch where A is odd, even. A is deleted.
#[tactic(auto, unfolding(hp_word_rows::specs::WordRows::branch_on_parity))]
fn branch_on_parity(
    regs: &mut Regs,
    stack: &mut Stack,
    parity: u16,
    back: bool,
    d: u8,
) -> Result<(), Trap>
    ensures { Performs (λ m. taking 1 m (branch_on_parity parity back d m)) (uses 1 0) regs.old (seen stack.old) result regs.new (seen stack.new) }
{
    need(stack, 1)?;
    let taken = stack.word(0) % 2 == parity;
    stack.replace(1, &[]);
    branch_where(regs, taken, back, d);
    Ok(())
}

/// BCY to BNOV: a branch on a flag; no word is taken.
fn branch_on(regs: &mut Regs, stack: &mut Stack, taken: bool, back: bool, d: u8) -> Result<(), Trap>
    ensures { Performs (λ m. Ok (branching taken back d m)) (uses 0 0) regs.old (seen stack.old) result regs.new (seen stack.new) }
{
    branch_where(regs, taken, back, d);
    Ok(())
}

/// A short branch, by its code.
#[tactic(auto, unfolding(hp_word_rows::specs::WordRows::short_branch, crate::specs::ReferenceUses::short_uses))]
pub(crate) fn short_branch(
    regs: &mut Regs,
    stack: &mut Stack,
    test: u8,
    back: bool,
    d: u8,
) -> Result<(), Trap>
    ensures { Performs (short_branch test back d) (short_uses test) regs.old (seen stack.old) result regs.new (seen stack.new) }
{
    let (carry, overflow) = (regs.carry, regs.overflow);
    match test {
        short::IABZ => step_top(regs, stack, 1, back, d),
        short::DABZ => step_top(regs, stack, 65535, back, d),
        short::IXBZ => step_x(regs, stack, 1, back, d),
        short::DXBZ => step_x(regs, stack, 65535, back, d),
        short::CPRB => branch_on_range(regs, stack, back, d),
        short::BRO => branch_on_parity(regs, stack, 1, back, d),
        short::BRE => branch_on_parity(regs, stack, 0, back, d),
        short::BCY => branch_on(regs, stack, carry, back, d),
        short::BNCY => branch_on(regs, stack, !carry, back, d),
        short::BOV => branch_on(regs, stack, overflow, back, d),
        short::BNOV => branch_on(regs, stack, !overflow, back, d),
        _ => Err(Trap::Illegal),
    }
}
