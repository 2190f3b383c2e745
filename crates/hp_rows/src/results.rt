//! What rows leave by their result: words in place of those that they take, flags, and the condition code.
ghost use Rattle.std.specs.Prelude.{◌≡◌, ◌≤◌, OnOk, OnErr, [], ◌∷◌};
ghost use Rattle.hp_word.specs.Words.{word_code};
ghost use Rattle.hp_tos.specs.StackView.{seen};
ghost use Rattle.hp_tos.specs.Calls.{replaced};
ghost use Rattle.hp_rows.specs.Moves.{in_range, flagged, coded, past};

use hp_session::{Regs, code_of};
use hp_tos::Stack;
use hp_word::{Arith, Code, Trap};

/// Puts an integer result in place of the `n` top words, which stand in registers.
pub fn settle(regs: &mut Regs, stack: &mut Stack, n: u8, r: Arith) -> Result<(), Trap>
    requires some { 1 ≤ n }
    requires there { n ≤ (seen stack.old).in_registers }
    ensures value { result ≡ in_range r.overflow }
    ensures ok { OnOk result ((regs.new ≡ flagged r.carry r.code regs.old) × (seen stack.new ≡ replaced n (r.value ∷ []) (seen stack.old))) }
    ensures err { OnErr result ((regs.new ≡ regs.old) × (stack.new ≡ stack.old)) }
{
    if r.overflow {
        return Err(Trap::IntegerOverflow);
    }
    stack.replace(n, &[r.value]);
    regs.overflow = false;
    regs.carry = r.carry;
    regs.code = r.code;
    Ok(())
}

/// Puts a word in place of the `n` top ones, which stand in registers, and sets its condition code.
pub fn leave_coded(regs: &mut Regs, stack: &mut Stack, n: u8, w: u16)
    requires some { 1 ≤ n }
    requires there { n ≤ (seen stack.old).in_registers }
    ensures code { regs.new ≡ coded (word_code w) regs.old }
    ensures words { seen stack.new ≡ replaced n (w ∷ []) (seen stack.old) }
{
    stack.replace(n, &[w]);
    regs.code = code_of(w);
}

/// Deletes the `n` top words, which stand in registers, and sets the condition code.
pub fn delete_coded(regs: &mut Regs, stack: &mut Stack, n: u8, code: Code)
    requires { n ≤ (seen stack.old).in_registers }
    ensures code { regs.new ≡ coded code regs.old }
    ensures words { seen stack.new ≡ replaced n [] (seen stack.old) }
{
    stack.replace(n, &[]);
    regs.code = code;
}

/// Goes on past the word at P, to the left half of the next.
#[inline]
pub fn pass(regs: &mut Regs)
    ensures { regs.new ≡ past regs.old }
{
    regs.p = regs.p.wrapping_add(1);
    regs.right = false;
}
