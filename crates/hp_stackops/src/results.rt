//! What an operation of major 0 leaves by its result, where `hp_rows` has no call for it.
ghost use Rattle.std.specs.Prelude.{◌≡◌, ◌≤◌, OnOk, OnErr, [], ◌∷◌};
ghost use Rattle.hp_word.specs.Words.{word_code};
ghost use Rattle.hp_word.specs.Bytes.{high_word, low_word};
ghost use Rattle.hp_tos.specs.StackView.{seen};
ghost use Rattle.hp_tos.specs.Calls.{replaced, word_at};
ghost use Rattle.hp_rows.specs.Moves.{in_range, flagged, coded};

use hp_session::{Regs, code_of, high_of, low_of};
use hp_tos::Stack;
use hp_word::{Arith, Trap, Wide};

/// Puts an integer result in place of B.
pub(crate) fn settle_below(regs: &mut Regs, stack: &mut Stack, r: Arith) -> Result<(), Trap>
    requires { 2 ≤ (seen stack.old).in_registers }
    ensures value { result ≡ in_range r.overflow }
    ensures ok { OnOk result ((regs.new ≡ flagged r.carry r.code regs.old) × (seen stack.new ≡ replaced 2 (r.value ∷ word_at 0 (seen stack.old) ∷ []) (seen stack.old))) }
    ensures err { OnErr result ((regs.new ≡ regs.old) × (stack.new ≡ stack.old)) }
{
    if r.overflow {
        return Err(Trap::IntegerOverflow);
    }
    let top = stack.word(0);
    stack.replace(2, &[r.value, top]);
    regs.overflow = false;
    regs.carry = r.carry;
    regs.code = r.code;
    Ok(())
}

/// Puts a double result in place of the `n` top words.
pub(crate) fn settle_double(regs: &mut Regs, stack: &mut Stack, n: u8, r: Wide) -> Result<(), Trap>
    requires some { 2 ≤ n }
    requires there { n ≤ (seen stack.old).in_registers }
    ensures value { result ≡ in_range r.overflow }
    ensures ok { OnOk result ((regs.new ≡ flagged r.carry r.code regs.old) × (seen stack.new ≡ replaced n (high_word r.value ∷ low_word r.value ∷ []) (seen stack.old))) }
    ensures err { OnErr result ((regs.new ≡ regs.old) × (stack.new ≡ stack.old)) }
{
    if r.overflow {
        return Err(Trap::IntegerOverflow);
    }
    stack.replace(n, &[high_of(r.value), low_of(r.value)]);
    regs.overflow = false;
    regs.carry = r.carry;
    regs.code = r.code;
    Ok(())
}

/// Puts a logical result in place of the two top words; the overflow bit stays.
pub(crate) fn settle_logical(regs: &mut Regs, stack: &mut Stack, r: Arith)
    requires { 2 ≤ (seen stack.old).in_registers }
    ensures flags { regs.new ≡ record regs.old { carry = r.carry; code = r.code } }
    ensures words { seen stack.new ≡ replaced 2 (r.value ∷ []) (seen stack.old) }
{
    stack.replace(2, &[r.value]);
    regs.carry = r.carry;
    regs.code = r.code;
}

/// Puts a quotient and on top the remainder in place of the `n` top words, and sets the quotient's condition code.
pub(crate) fn leave_quotient(
    regs: &mut Regs,
    stack: &mut Stack,
    n: u8,
    quotient: u16,
    remainder: u16,
)
    requires some { 2 ≤ n }
    requires there { n ≤ (seen stack.old).in_registers }
    ensures code { regs.new ≡ coded (word_code quotient) regs.old }
    ensures words { seen stack.new ≡ replaced n (quotient ∷ remainder ∷ []) (seen stack.old) }
{
    stack.replace(n, &[quotient, remainder]);
    regs.code = code_of(quotient);
}
