//! Counts of words: ROOM, ADDS and SUBS.
ghost use Rattle.std.specs.Prelude.{length, replicate};
ghost use Rattle.hp_session.specs.State.{deleted, pushing_all};
ghost use Rattle.hp_tos.specs.StackView.{seen};
ghost use Rattle.hp_word_rows.specs.WordRows.{having_room, roomy};
ghost use Rattle.hp_rows.specs.Numbers.{drops, uses};
ghost use Rattle.hp_rows.specs.Performs.{Performs};

use hp_rows::{need, push_all};
use hp_session::Regs;
use hp_tos::Stack;
use hp_word::Trap;

/// ROOM of n: there must be room for n more words.
pub(crate) fn have_room(regs: &mut Regs, stack: &mut Stack, n: u8) -> Result<(), Trap>
    ensures { Performs (having_room n) (uses 0 0) regs.old (seen stack.old) result regs.new (seen stack.new) }
{
    if stack.limit() - stack.words() < n as u16 {
        return Err(Trap::StackOverflow);
    }
    Ok(())
}

/// ROOM of 0: the same for the number in A, which is deleted.
#[tactic(auto, unfolding(hp_word_rows::specs::WordRows::roomy))]
pub(crate) fn have_room_for_top(regs: &mut Regs, stack: &mut Stack) -> Result<(), Trap>
    ensures { Performs (roomy 0) (uses 1 0) regs.old (seen stack.old) result regs.new (seen stack.new) }
{
    need(stack, 1)?;
    if stack.limit() - (stack.words() - 1) < stack.word(0) {
        return Err(Trap::StackOverflow);
    }
    stack.replace(1, &[]);
    Ok(())
}

/// Words are pushed.
fn push_words(regs: &mut Regs, stack: &mut Stack, words: &[u16]) -> Result<(), Trap>
    ensures { Performs (pushing_all words.now) (uses 0 (length words.now)) regs.old (seen stack.old) result regs.new (seen stack.new) }
{
    push_all(stack, words)
}

/// ADDS: n zeros are pushed.
pub(crate) fn push_zeros(regs: &mut Regs, stack: &mut Stack, n: u8) -> Result<(), Trap>
    ensures { Performs (pushing_all (replicate n 0)) (uses 0 n) regs.old (seen stack.old) result regs.new (seen stack.new) }
{
    let zeros = [0; 255];
    push_words(regs, stack, &zeros[..n as usize])
}

/// SUBS: n words are deleted, those in registers first, with no fill.
#[tactic(auto, unfolding(hp_session::specs::State::deleted))]
pub(crate) fn drop_top(regs: &mut Regs, stack: &mut Stack, n: u8) -> Result<(), Trap>
    ensures { Performs (deleted n) (drops n) regs.old (seen stack.old) result regs.new (seen stack.new) }
{
    match stack.drop_words(n as u16) {
        Ok(()) => Ok(()),
        Err(_) => Err(Trap::StackUnderflow),
    }
}
