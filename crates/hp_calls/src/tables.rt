//! The table of entries at a segment's end, as a store of code has it.
ghost use Rattle.std.specs.Prelude.{◌≡◌, ℕ, List, slice_get, slice_index};
ghost use Rattle.hp_program.specs.Valid.{label_of};
ghost use Rattle.hp_session.specs.State.{Machine};
ghost use Rattle.hp_call_rows.specs.CallRows.{label_at};
ghost use Rattle.hp_tos.specs.Seen.{Seen};
ghost use Rattle.hp_rows.specs.Standing.{standing};
ghost use Rattle.hp_calls.specs.Phases.{words_in};

use hp_instr::{Label, read_label};
use hp_program::{CodeStore, Fetched};
use hp_session::Regs;
use hp_word::Trap;

/// The word at an offset of a segment; 0 where there is none.
#[tactic(auto, using(crate::proofs::TableLemmas::word_there, crate::proofs::TableLemmas::word_outside, crate::proofs::TableLemmas::word_absent))]
fn word_at<C: CodeStore>(code: &C, seg: u8, offset: u16) -> u16
    ensures { result ≡ slice_index (words_in (C.held code.now) seg) offset }
{
    match code.fetch(seg, offset) {
        Fetched::Word(word) => word,
        Fetched::Absent | Fetched::Outside => 0,
    }
}

/// The word of entry `n` in a segment's table, which stands `n` words before the last; the last, entry 0, is the number of
/// entries. It is 0 where there is no such word.
pub(crate) fn table_word<C: CodeStore>(code: &C, seg: u8, n: u8) -> u16
    ensures { result ≡ label_of (words_in (C.held code.now) seg) n }
{
    let last = code.size(seg).unwrap_or(0).saturating_sub(1);
    word_at(code, seg, last.saturating_sub(n as u16))
}

/// The label of an entry of the current segment. There is no entry 0, and none past their number.
#[tactic(auto, unfolding(hp_call_rows::specs::CallRows::label_at))]
pub(crate) fn label_at<C: CodeStore>(n: u8, regs: &Regs, code: &C) -> Result<Label, Trap>
    ensures { (segments : List (List ℕ)) → slice_get segments regs.now.seg ≡ C.held code.now regs.now.seg
        → (s : Seen) (rest : Machine) → result ≡ label_at segments n (standing regs.now s rest) }
{
    if n == 0 || table_word(code, regs.seg, 0) < n as u16 {
        return Err(Trap::BadEntry);
    }
    Ok(read_label(table_word(code, regs.seg, n)))
}
