//! Fields of words: EXF and DPF. The left four bits of the number are the field's first bit, the right four its length.
ghost use Rattle.std.specs.Prelude.{◌≡◌, ◌≤◌, ◌+◌};
ghost use Rattle.hp_instr.specs.Bits.{bits};
ghost use Rattle.hp_instr.specs.Fields.{field_length};
ghost use Rattle.hp_tos.specs.StackView.{seen};
ghost use Rattle.hp_word_rows.specs.WordRows.{field_put, field_taken};
ghost use Rattle.hp_rows.specs.Numbers.{uses};
ghost use Rattle.hp_rows.specs.Performs.{Performs};

use hp_rows::{leave_coded, need};
use hp_session::Regs;
use hp_tos::Stack;
use hp_word::Trap;

/// The length of a field, 1 to 16; 16 where the four bits are 0.
fn field_length(n: u8) -> u8
    ensures value { result ≡ field_length n }
    ensures some { 1 ≤ result }
{
    if n % 16 == 0 { 16 } else { n % 16 }
}

/// EXF: A becomes its field.
#[tactic(auto, unfolding(hp_word_rows::specs::WordRows::field_taken))]
pub(crate) fn take_field(regs: &mut Regs, stack: &mut Stack, n: u8) -> Result<(), Trap>
    requires { bits 8 11 n + field_length n ≤ 16 }
    ensures { Performs (field_taken n) (uses 1 1) regs.old (seen stack.old) result regs.new (seen stack.new) }
{
    need(stack, 1)?;
    let field = hp_word::extract(stack.word(0), n / 16, field_length(n));
    leave_coded(regs, stack, 1, field);
    Ok(())
}

/// DPF: A is deleted, and put into B's field.
#[tactic(auto, unfolding(hp_word_rows::specs::WordRows::field_put))]
pub(crate) fn put_field(regs: &mut Regs, stack: &mut Stack, n: u8) -> Result<(), Trap>
    requires { bits 8 11 n + field_length n ≤ 16 }
    ensures { Performs (field_put n) (uses 2 1) regs.old (seen stack.old) result regs.new (seen stack.new) }
{
    need(stack, 2)?;
    let (b, a) = (stack.word(1), stack.word(0));
    leave_coded(
        regs,
        stack,
        2,
        hp_word::deposit(b, n / 16, field_length(n), a),
    );
    Ok(())
}
