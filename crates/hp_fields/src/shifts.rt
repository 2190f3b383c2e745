//! Shifts of the top word.
ghost use Rattle.std.specs.Prelude.{◌≡◌, ◌<◌};
ghost use Rattle.hp_tos.specs.StackView.{seen};
ghost use Rattle.hp_word_rows.specs.WordRows.{shifting};
ghost use Rattle.hp_rows.specs.Numbers.{uses};
ghost use Rattle.hp_rows.specs.Performs.{Performs};

use hp_rows::{leave_coded, need};
use hp_session::Regs;
use hp_tos::Stack;
use hp_word::{Trap, shift_word};
use hp_word_rows::shift_of;

/// A shift of A by `count` places.
#[tactic(auto, unfolding(hp_word_rows::specs::WordRows::shifting))]
pub(crate) fn shift_top(regs: &mut Regs, stack: &mut Stack, kind: u8, count: u8) -> Result<(), Trap>
    requires { count < 64 }
    ensures { Performs (shifting kind count) (uses 1 1) regs.old (seen stack.old) result regs.new (seen stack.new) }
{
    need(stack, 1)?;
    leave_coded(
        regs,
        stack,
        1,
        shift_word(shift_of(kind), stack.word(0), count),
    );
    Ok(())
}
