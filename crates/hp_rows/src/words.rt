//! Words that a row needs in registers, and words that it pushes.
//!
//! What a row deletes or exchanges stands in registers by then, and goes by `Stack::replace`, which has nothing to test.
ghost use Rattle.std.specs.Prelude.{◌≡◌, ◌≤◌, length, [], ◌∷◌, OnOk, OnErr};
ghost use Rattle.hp_tos.specs.StackView.{seen};
ghost use Rattle.hp_tos.specs.Calls.{filled};
ghost use Rattle.hp_tos.specs.Steps.{pushed_together};
ghost use Rattle.hp_rows.specs.Moves.{needed, allowed};

use hp_tos::Stack;
use hp_word::Trap;

/// Needs the `n` top words in registers. A trap fills none.
#[inline]
pub fn need(stack: &mut Stack, n: u8) -> Result<(), Trap>
    requires { n ≤ 4 }
    ensures value { result ≡ needed n (seen stack.old) }
    ensures ok { OnOk result (seen stack.new ≡ filled n (seen stack.old)) }
    ensures err { OnErr result (stack.new ≡ stack.old) }
{
    match stack.need(n) {
        Ok(()) => Ok(()),
        Err(_) => Err(Trap::StackUnderflow),
    }
}

/// Pushes a word.
#[inline]
pub fn push(stack: &mut Stack, w: u16) -> Result<(), Trap>
    ensures value { result ≡ allowed 1 (seen stack.old) }
    ensures ok { OnOk result (seen stack.new ≡ pushed_together (w ∷ []) (seen stack.old)) }
    ensures err { OnErr result (stack.new ≡ stack.old) }
{
    match stack.push(w) {
        Ok(()) => Ok(()),
        Err(_) => Err(Trap::StackOverflow),
    }
}

/// Pushes some words, the last of them on top, or none of them.
pub fn push_all(stack: &mut Stack, words: &[u16]) -> Result<(), Trap>
    ensures value { result ≡ allowed (length words.now) (seen stack.old) }
    ensures ok { OnOk result (seen stack.new ≡ pushed_together words.now (seen stack.old)) }
    ensures err { OnErr result (stack.new ≡ stack.old) }
{
    if ((stack.limit() - stack.words()) as usize) < words.len() {
        return Err(Trap::StackOverflow);
    }
    stack.put_all(words);
    Ok(())
}
