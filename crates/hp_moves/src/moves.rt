//! MOVE, MVB and MVBW.
ghost use Rattle.std.specs.Prelude.{◌≡◌, ℕ, List, slice_get};
ghost use Rattle.hp_memory_rows.specs.MoveRows.{bytes_moved, bytes_moved_while, words_moved};
ghost use Rattle.hp_tos.specs.StackView.{seen};
ghost use Rattle.hp_moves.specs.MoveUses.{ending_with};
ghost use Rattle.hp_moves.specs.MoveSteps.{MovesOn};

use crate::elements::{Element, go_on, next_element};
use crate::sources::{source_byte, source_word};
use crate::steps::MoveStep;
use hp_memory_rows::{as_moved, is_of_class};
use hp_program::CodeStore;
use hp_rows::{need, pass, read_byte, write_at, write_byte};
use hp_session::{Place, Regs};
use hp_tos::Stack;
use hp_word::Trap;

/// MOVE: a word from B to C. At count 0 source and count are deleted.
#[tactic(auto, unfolding(hp_memory_rows::specs::MoveRows::words_moved, hp_memory_rows::specs::MoveRows::element_done))]
pub(crate) fn move_word<C: CodeStore>(
    regs: &mut Regs,
    stack: &mut Stack,
    code: &C,
    of_code: bool,
) -> Result<MoveStep, Trap>
    ensures { (segments : List (List ℕ)) → slice_get segments regs.old.seg ≡ C.held code.now regs.old.seg
        → MovesOn (words_moved segments of_code) (ending_with 3 1) regs.old (seen stack.old) result regs.new (seen stack.new) }
{
    let Element { c, b, a } = next_element(stack)?;
    if a == 0 {
        stack.replace(2, &[]);
        pass(regs);
        return Ok(MoveStep::Moved);
    }
    let word = source_word(regs, stack, code, of_code, b)?;
    write_at(stack, Place::Db(c), word)?;
    go_on(stack, c, b, a);
    Ok(MoveStep::Moving)
}

/// MVB: the same with bytes.
#[tactic(auto, unfolding(hp_memory_rows::specs::MoveRows::bytes_moved, hp_memory_rows::specs::MoveRows::element_done))]
pub(crate) fn move_byte<C: CodeStore>(
    regs: &mut Regs,
    stack: &mut Stack,
    code: &C,
    of_code: bool,
) -> Result<MoveStep, Trap>
    ensures { (segments : List (List ℕ)) → slice_get segments regs.old.seg ≡ C.held code.now regs.old.seg
        → MovesOn (bytes_moved segments of_code) (ending_with 3 1) regs.old (seen stack.old) result regs.new (seen stack.new) }
{
    let Element { c, b, a } = next_element(stack)?;
    if a == 0 {
        stack.replace(2, &[]);
        pass(regs);
        return Ok(MoveStep::Moved);
    }
    let byte = source_byte(regs, stack, code, of_code, b)?;
    write_byte(stack, Place::Db(c), byte)?;
    go_on(stack, c, b, a);
    Ok(MoveStep::Moving)
}

/// MVBW: a byte of the class from A to B, and both addresses rise. At another byte the source is deleted.
#[tactic(auto, unfolding(hp_memory_rows::specs::MoveRows::bytes_moved_while))]
pub(crate) fn move_byte_while(regs: &mut Regs, stack: &mut Stack, n: u8) -> Result<MoveStep, Trap>
    ensures { MovesOn (bytes_moved_while n) (ending_with 2 1) regs.old (seen stack.old) result regs.new (seen stack.new) }
{
    need(stack, 2)?;
    let (b, a) = (stack.word(1), stack.word(0));
    let byte = read_byte(stack, Place::Db(a))?;
    if !is_of_class(n, byte) {
        stack.replace(1, &[]);
        pass(regs);
        return Ok(MoveStep::Moved);
    }
    write_byte(stack, Place::Db(b), as_moved(n, byte))?;
    stack.replace(2, &[b.wrapping_add(1), a.wrapping_add(1)]);
    Ok(MoveStep::Moving)
}
