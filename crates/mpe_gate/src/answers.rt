//! The words that a call takes, and its answer in their place.
ghost use Rattle.std.specs.Prelude.{◌≡◌, ◌<◌, ◌≤◌, length, MatchResult};
ghost use Rattle.hp_word.specs.declared.endings.Trap.TheVariants.{StackUnderflow};
ghost use Rattle.hp_tos.specs.StackView.{seen};
ghost use Rattle.hp_rows.specs.Moves.{coded};
ghost use Rattle.mpe_gate.specs.Words.{answered};

use hp_session::Regs;
use hp_tos::Stack;
use hp_word::{Code, Trap};

/// Tests that there are `n` words to take.
pub(crate) fn need(stack: &Stack, n: u16) -> Result<(), Trap>
    ensures { MatchResult result (λ _. n ≤ length (seen stack.now).words)
        (λ t. (t ≡ StackUnderflow) × (length (seen stack.now).words < n)) }
{
    if stack.words() < n {
        Err(Trap::StackUnderflow)
    } else {
        Ok(())
    }
}

/// Puts an answer in place of the `n` top words, which stand in memory, with its code.
pub(crate) fn answer(regs: &mut Regs, stack: &mut Stack, n: u16, words: &[u16], code: Code)
    requires none { (seen stack.old).in_registers ≡ 0 }
    requires there { n ≤ length (seen stack.old).words }
    requires enough { length words.now ≤ n }
    requires few { length words.now ≤ 4 }
    ensures code { regs.new ≡ coded code regs.old }
    ensures words { seen stack.new ≡ answered n words.now (seen stack.old) }
{
    stack.drop_words(n).unwrap();
    stack.put_all(words);
    regs.code = code;
}
