//! SCW, SCU and CMPB: bytes that are passed or compared, and none stored.
ghost use Rattle.std.specs.Prelude.{◌≡◌, ◌≤◌, ◌%◌, ◌+◌, ◌/◌, ◌&&◌, ◌==◌, not, [], ◌∷◌, ℕ, List, slice_get};
ghost use Rattle.hp_session.specs.State.{wrapped};
ghost use Rattle.hp_memory_rows.specs.MoveRows.{bytes_compared, scanned_until, scanned_while};
ghost use Rattle.hp_tos.specs.StackView.{seen};
ghost use Rattle.hp_tos.specs.Calls.{replaced, word_at};
ghost use Rattle.hp_rows.specs.Moves.{past};
ghost use Rattle.hp_moves.specs.MoveUses.{ending_with};
ghost use Rattle.hp_moves.specs.MoveSteps.{MovesOn};

use crate::elements::{Element, go_on, next_element};
use crate::sources::source_byte;
use crate::steps::MoveStep;
use hp_program::CodeStore;
use hp_rows::{delete_coded, need, pass, read_byte};
use hp_session::{Place, Regs};
use hp_tos::Stack;
use hp_word::{Code, Trap};

/// Goes past the byte at B.
fn pass_byte(stack: &mut Stack) -> MoveStep
    requires { 2 ≤ (seen stack.old).in_registers }
    ensures words { seen stack.new ≡ replaced 2 (wrapped (word_at 1 (seen stack.old) + 1) ∷ word_at 0 (seen stack.old) ∷ []) (seen stack.old) }
    ensures step { result ≡ MoveStep.Moving }
{
    let (b, a) = (stack.word(1), stack.word(0));
    stack.replace(2, &[b.wrapping_add(1), a]);
    MoveStep::Moving
}

/// Ends a scan at a byte: the test word in A is deleted, and the carry tells whether the byte is its left half and not its
/// right.
fn end_scan(regs: &mut Regs, stack: &mut Stack, byte: u8) -> MoveStep
    requires { 1 ≤ (seen stack.old).in_registers }
    ensures words { seen stack.new ≡ replaced 1 [] (seen stack.old) }
    ensures carry { regs.new ≡ record (past regs.old) { carry = (byte == word_at 0 (seen stack.old) / 256) && not (byte == word_at 0 (seen stack.old) % 256) } }
    ensures step { result ≡ MoveStep.Moved }
{
    let test = stack.word(0);
    regs.carry = byte as u16 == test / 256 && !(byte as u16 == test % 256);
    stack.replace(1, &[]);
    pass(regs);
    MoveStep::Moved
}

/// SCW: passes the byte at B where it is the test word's right half.
#[tactic(auto, unfolding(hp_memory_rows::specs::MoveRows::scanned_while, hp_memory_rows::specs::MoveRows::scan_ended))]
pub(crate) fn scan_while(regs: &mut Regs, stack: &mut Stack) -> Result<MoveStep, Trap>
    ensures { MovesOn scanned_while (ending_with 2 1) regs.old (seen stack.old) result regs.new (seen stack.new) }
{
    need(stack, 2)?;
    let byte = read_byte(stack, Place::Db(stack.word(1)))?;
    if byte as u16 == stack.word(0) % 256 {
        Ok(pass_byte(stack))
    } else {
        Ok(end_scan(regs, stack, byte))
    }
}

/// SCU: passes the byte at B where it is neither half of the test word.
#[tactic(auto, unfolding(hp_memory_rows::specs::MoveRows::scanned_until, hp_memory_rows::specs::MoveRows::scan_ended))]
pub(crate) fn scan_until(regs: &mut Regs, stack: &mut Stack) -> Result<MoveStep, Trap>
    ensures { MovesOn scanned_until (ending_with 2 1) regs.old (seen stack.old) result regs.new (seen stack.new) }
{
    need(stack, 2)?;
    let byte = read_byte(stack, Place::Db(stack.word(1)))?;
    let test = stack.word(0);
    if byte as u16 == test / 256 || byte as u16 == test % 256 {
        Ok(end_scan(regs, stack, byte))
    } else {
        Ok(pass_byte(stack))
    }
}

/// Ends a comparison with a condition code: the three words are deleted.
fn end_comparison(regs: &mut Regs, stack: &mut Stack, code: Code) -> MoveStep
    requires { 3 ≤ (seen stack.old).in_registers }
    ensures words { seen stack.new ≡ replaced 3 [] (seen stack.old) }
    ensures code { regs.new ≡ record (past regs.old) { code = code } }
    ensures step { result ≡ MoveStep.Moved }
{
    delete_coded(regs, stack, 3, code);
    pass(regs);
    MoveStep::Moved
}

/// CMPB: the byte at C against that at B, unsigned. Both go on where they are equal; count 0 ends with CCE.
#[tactic(auto, unfolding(hp_memory_rows::specs::MoveRows::bytes_compared, hp_memory_rows::specs::MoveRows::element_done))]
pub(crate) fn compare_byte<C: CodeStore>(
    regs: &mut Regs,
    stack: &mut Stack,
    code: &C,
    of_code: bool,
) -> Result<MoveStep, Trap>
    ensures { (segments : List (List ℕ)) → slice_get segments regs.old.seg ≡ C.held code.now regs.old.seg
        → MovesOn (bytes_compared segments of_code) (ending_with 3 0) regs.old (seen stack.old) result regs.new (seen stack.new) }
{
    let Element { c, b, a } = next_element(stack)?;
    if a == 0 {
        return Ok(end_comparison(regs, stack, Code::Equal));
    }
    let first = read_byte(stack, Place::Db(c))?;
    let second = source_byte(regs, stack, code, of_code, b)?;
    if first == second {
        go_on(stack, c, b, a);
        return Ok(MoveStep::Moving);
    }
    let code = if second < first {
        Code::Greater
    } else {
        Code::Less
    };
    Ok(end_comparison(regs, stack, code))
}
