//! Where elements come from: the data that DB addresses, or the code of the current segment.
ghost use Rattle.std.specs.Prelude.{◌≡◌, ℕ, List, slice_get, ◌⊎◌, IfErr};
ghost use Rattle.hp_word.specs.declared.endings.Trap.TheVariants.{Bounds, CodeBounds};
ghost use Rattle.hp_session.specs.State.{Machine};
ghost use Rattle.hp_memory_rows.specs.MemoryRows.{code_read};
ghost use Rattle.hp_memory_rows.specs.MoveRows.{source_byte, source_word};
ghost use Rattle.hp_tos.specs.Seen.{Seen};
ghost use Rattle.hp_tos.specs.StackView.{seen};
ghost use Rattle.hp_rows.specs.Standing.{standing};

use hp_program::{CodeStore, Fetched};
use hp_rows::{read_at, read_byte};
use hp_session::{Place, Regs, byte_of};
use hp_tos::Stack;
use hp_word::Trap;

/// A word of the current segment, read as data.
#[tactic(auto, unfolding(hp_memory_rows::specs::MemoryRows::code_read, hp_program::specs::Programs::code_word, hp_program::specs::Stores::fetched))]
fn read_code<C: CodeStore>(regs: &Regs, code: &C, offset: u16) -> Result<u16, Trap>
    ensures value { (segments : List (List ℕ)) → slice_get segments regs.now.seg ≡ C.held code.now regs.now.seg
        → (s : Seen) (rest : Machine) → result ≡ code_read segments offset (standing regs.now s rest) }
    ensures trap { IfErr result (λ t. t ≡ CodeBounds) }
{
    match code.fetch(regs.seg, offset) {
        Fetched::Word(word) => Ok(word),
        Fetched::Absent | Fetched::Outside => Err(Trap::CodeBounds),
    }
}

/// The word that MOVE moves: at an offset of the code, or at an address of the data.
#[tactic(auto, unfolding(hp_memory_rows::specs::MoveRows::source_word))]
pub(crate) fn source_word<C: CodeStore>(
    regs: &Regs,
    stack: &Stack,
    code: &C,
    of_code: bool,
    a: u16,
) -> Result<u16, Trap>
    ensures value { (segments : List (List ℕ)) → slice_get segments regs.now.seg ≡ C.held code.now regs.now.seg
        → (rest : Machine) → result ≡ source_word segments of_code a (standing regs.now (seen stack.now) rest) }
    ensures trap { IfErr result (λ t. (t ≡ Bounds) ⊎ (t ≡ CodeBounds)) }
{
    if of_code {
        read_code(regs, code, a)
    } else {
        read_at(stack, Place::Db(a))
    }
}

/// The byte that MVB moves, or that CMPB compares with: at a byte offset of the code, or at a byte address of the data.
#[tactic(auto, unfolding(hp_memory_rows::specs::MoveRows::source_byte))]
pub(crate) fn source_byte<C: CodeStore>(
    regs: &Regs,
    stack: &Stack,
    code: &C,
    of_code: bool,
    b: u16,
) -> Result<u8, Trap>
    ensures value { (segments : List (List ℕ)) → slice_get segments regs.now.seg ≡ C.held code.now regs.now.seg
        → (rest : Machine) → result ≡ source_byte segments of_code b (standing regs.now (seen stack.now) rest) }
    ensures trap { IfErr result (λ t. (t ≡ Bounds) ⊎ (t ≡ CodeBounds)) }
{
    if of_code {
        let word = read_code(regs, code, b / 2)?;
        Ok(byte_of(b as usize, word))
    } else {
        read_byte(stack, Place::Db(b))
    }
}
