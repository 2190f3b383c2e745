//! Operations that put words elsewhere: delete, push, copy and exchange them, and X with them. A is the top word.
ghost use Rattle.std.specs.Prelude.{◌≤◌, [], ◌∷◌, Ok};
ghost use Rattle.hp_session.specs.State.{deleted, pushing, pushing_all, with_x};
ghost use Rattle.hp_stack_rows.specs.StackRows.{below_becomes, below_deleted, copied, exchanged, rotated, top_plus_x, x_and_below, x_and_top, x_from_below, x_from_top, x_plus_top};
ghost use Rattle.hp_tos.specs.StackView.{seen};
ghost use Rattle.hp_rows.specs.Numbers.{uses};
ghost use Rattle.hp_rows.specs.Performs.{Performs};

use hp_rows::{need, push, push_all};
use hp_session::Regs;
use hp_tos::Stack;
use hp_word::Trap;

/// DEL and DDEL: `n` words are deleted.
#[tactic(auto, unfolding(hp_session::specs::State::deleted))]
pub(crate) fn delete(regs: &mut Regs, stack: &mut Stack, n: u8) -> Result<(), Trap>
    requires { n ≤ 4 }
    ensures { Performs (deleted n) (uses n 0) regs.old (seen stack.old) result regs.new (seen stack.new) }
{
    need(stack, n)?;
    stack.replace(n, &[]);
    Ok(())
}

/// DELB: B is deleted, under A.
#[tactic(auto, unfolding(hp_stack_rows::specs::StackRows::below_deleted))]
pub(crate) fn delete_below(regs: &mut Regs, stack: &mut Stack) -> Result<(), Trap>
    ensures { Performs below_deleted (uses 2 1) regs.old (seen stack.old) result regs.new (seen stack.new) }
{
    need(stack, 2)?;
    let top = stack.word(0);
    stack.replace(2, &[top]);
    Ok(())
}

/// ZROB and LDXB: B becomes a word.
#[tactic(auto, unfolding(hp_stack_rows::specs::StackRows::below_becomes))]
pub(crate) fn set_below(regs: &mut Regs, stack: &mut Stack, w: u16) -> Result<(), Trap>
    ensures { Performs (below_becomes w) (uses 2 2) regs.old (seen stack.old) result regs.new (seen stack.new) }
{
    need(stack, 2)?;
    let top = stack.word(0);
    stack.replace(2, &[w, top]);
    Ok(())
}

/// ZERO and LDXA: a word is pushed.
pub(crate) fn push_word(regs: &mut Regs, stack: &mut Stack, w: u16) -> Result<(), Trap>
    ensures { Performs (pushing w) (uses 0 1) regs.old (seen stack.old) result regs.new (seen stack.new) }
{
    push(stack, w)
}

/// DZRO: two zeros are pushed.
pub(crate) fn push_zeros(regs: &mut Regs, stack: &mut Stack) -> Result<(), Trap>
    ensures { Performs (pushing_all (0 ∷ 0 ∷ [])) (uses 0 2) regs.old (seen stack.old) result regs.new (seen stack.new) }
{
    push_all(stack, &[0, 0])
}

/// DUP: A once more.
#[tactic(auto, unfolding(hp_stack_rows::specs::StackRows::copied))]
pub(crate) fn copy(regs: &mut Regs, stack: &mut Stack) -> Result<(), Trap>
    ensures { Performs copied (uses 1 2) regs.old (seen stack.old) result regs.new (seen stack.new) }
{
    need(stack, 1)?;
    push(stack, stack.word(0))
}

/// XCH: A and B in each other's place.
#[tactic(auto, unfolding(hp_stack_rows::specs::StackRows::exchanged))]
pub(crate) fn exchange(regs: &mut Regs, stack: &mut Stack) -> Result<(), Trap>
    ensures { Performs exchanged (uses 2 2) regs.old (seen stack.old) result regs.new (seen stack.new) }
{
    need(stack, 2)?;
    let (b, a) = (stack.word(1), stack.word(0));
    stack.replace(2, &[a, b]);
    Ok(())
}

/// CAB: C, B, A become B, A, C.
#[tactic(auto, unfolding(hp_stack_rows::specs::StackRows::rotated))]
pub(crate) fn rotate(regs: &mut Regs, stack: &mut Stack) -> Result<(), Trap>
    ensures { Performs rotated (uses 3 3) regs.old (seen stack.old) result regs.new (seen stack.new) }
{
    need(stack, 3)?;
    let (c, b, a) = (stack.word(2), stack.word(1), stack.word(0));
    stack.replace(3, &[b, a, c]);
    Ok(())
}

/// ZROX, INCX and DECX: X becomes a word.
pub(crate) fn set_x(regs: &mut Regs, stack: &mut Stack, x: u16) -> Result<(), Trap>
    ensures { Performs (λ m. Ok (with_x x m)) (uses 0 0) regs.old (seen stack.old) result regs.new (seen stack.new) }
{
    regs.x = x;
    Ok(())
}

/// STBX: X becomes B, which stays.
#[tactic(auto, unfolding(hp_stack_rows::specs::StackRows::x_from_below))]
pub(crate) fn take_x_below(regs: &mut Regs, stack: &mut Stack) -> Result<(), Trap>
    ensures { Performs x_from_below (uses 2 2) regs.old (seen stack.old) result regs.new (seen stack.new) }
{
    need(stack, 2)?;
    regs.x = stack.word(1);
    Ok(())
}

/// STAX: X becomes A, which is deleted.
#[tactic(auto, unfolding(hp_stack_rows::specs::StackRows::x_from_top))]
pub(crate) fn take_x(regs: &mut Regs, stack: &mut Stack) -> Result<(), Trap>
    ensures { Performs x_from_top (uses 1 0) regs.old (seen stack.old) result regs.new (seen stack.new) }
{
    need(stack, 1)?;
    regs.x = stack.word(0);
    stack.replace(1, &[]);
    Ok(())
}

/// ADAX: X becomes X plus A, which is deleted.
#[tactic(auto, unfolding(hp_stack_rows::specs::StackRows::x_plus_top))]
pub(crate) fn add_to_x(regs: &mut Regs, stack: &mut Stack) -> Result<(), Trap>
    ensures { Performs x_plus_top (uses 1 0) regs.old (seen stack.old) result regs.new (seen stack.new) }
{
    need(stack, 1)?;
    regs.x = regs.x.wrapping_add(stack.word(0));
    stack.replace(1, &[]);
    Ok(())
}

/// ADXA: A becomes A plus X.
#[tactic(auto, unfolding(hp_stack_rows::specs::StackRows::top_plus_x))]
pub(crate) fn add_x(regs: &mut Regs, stack: &mut Stack) -> Result<(), Trap>
    ensures { Performs top_plus_x (uses 1 1) regs.old (seen stack.old) result regs.new (seen stack.new) }
{
    need(stack, 1)?;
    let sum = stack.word(0).wrapping_add(regs.x);
    stack.replace(1, &[sum]);
    Ok(())
}

/// XAX: X and A in each other's place.
#[tactic(auto, unfolding(hp_stack_rows::specs::StackRows::x_and_top))]
pub(crate) fn exchange_x(regs: &mut Regs, stack: &mut Stack) -> Result<(), Trap>
    ensures { Performs x_and_top (uses 1 1) regs.old (seen stack.old) result regs.new (seen stack.new) }
{
    need(stack, 1)?;
    let top = stack.word(0);
    stack.replace(1, &[regs.x]);
    regs.x = top;
    Ok(())
}

/// XBX: X and B in each other's place.
#[tactic(auto, unfolding(hp_stack_rows::specs::StackRows::x_and_below))]
pub(crate) fn exchange_x_below(regs: &mut Regs, stack: &mut Stack) -> Result<(), Trap>
    ensures { Performs x_and_below (uses 2 2) regs.old (seen stack.old) result regs.new (seen stack.new) }
{
    need(stack, 2)?;
    let (below, top) = (stack.word(1), stack.word(0));
    stack.replace(2, &[regs.x, top]);
    regs.x = below;
    Ok(())
}
