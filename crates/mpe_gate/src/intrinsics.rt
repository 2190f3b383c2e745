//! The intrinsics: each tests its words, then its bounds and its room, and only then does what it does.
ghost use Rattle.std.specs.Prelude.{◌≡◌, ◌≤◌, length, slice_get};
ghost use Rattle.hp_word.specs.declared.intrinsics.Intrinsic.TheVariants.{Print, Read, Ascii, Dascii, Binary, Dbinary, Quit};
ghost use Rattle.hp_session.specs.SessionView.{lines_of};
ghost use Rattle.hp_session.specs.declared.registers.Regs.{Regs};
ghost use Rattle.hp_call_rows.specs.GateRows.{performed, text_answered, line_read, number_there};
ghost use Rattle.hp_tos.specs.StackView.{seen};
ghost use Rattle.mpe_session.specs.declared.terminal.Terminal.{Terminal};
ghost use Rattle.hp_session.specs.State.{Machine};
ghost use Rattle.mpe_gate.specs.Serves.{ServesAs, came};

use crate::answers::{answer, need};
use crate::bytes::{in_bounds, number_at, print_bytes, store_bytes};
use hp_call_rows::{
    bytes_of_length, feed_of, first_bytes, in_unit, line_at, signed_double, signed_number,
};
use hp_session::{Regs, double_of, high_of, low_of, signed_word};
use hp_tos::Stack;
use hp_word::{Code, Ending, Number, Trap, decimal_text, octal_text};
use mpe_session::Terminal;

/// PRINT: a word address, a length, a control. Prints the bytes of the length, and then a line feed unless the control is %320.
#[tactic(auto, using(hp_call_rows::proofs::GateLemmas::print_is, hp_call_rows::proofs::GateLemmas::too_few))]
pub(crate) fn print(
    regs: &mut Regs,
    stack: &mut Stack,
    terminal: &mut Terminal,
) -> Result<Ending, Trap>
    requires { (seen stack.old).in_registers ≡ 0 }
    ensures { ServesAs (performed Print) 0 regs.old (seen stack.old) terminal.old (came result)
        regs.new (seen stack.new) terminal.new }
{
    need(stack, 3)?;
    let first = 2 * stack.word(2) as usize;
    let count = bytes_of_length(stack.word(1));
    let feed = feed_of(stack.word(0));
    if !in_bounds(stack, first, count) {
        return Err(Trap::Bounds);
    }
    if terminal.room as usize - terminal.printed.len() < count + feed.len() {
        return Err(Trap::OutputLimit);
    }
    print_bytes(&mut terminal.printed, stack, first, count, feed);
    answer(regs, stack, 3, &[], Code::Equal);
    Ok(Ending::Running)
}

/// Stores the first bytes of the next line, if there is one, and answers how many.
#[tactic(auto, using(hp_call_rows::proofs::GateLemmas::stored_lengths))]
fn read_line(regs: &mut Regs, stack: &mut Stack, terminal: &mut Terminal) -> Result<Ending, Trap>
    requires none { (seen stack.old).in_registers ≡ 0 }
    requires there { 3 ≤ length (seen stack.old).words }
    ensures { ServesAs (line_read (slice_get (lines_of terminal.old.lines.items) terminal.old.next_line)) 1
        regs.old (seen stack.old) terminal.old (came result)
        regs.new (seen stack.new) terminal.new }
{
    let first = 2 * stack.word(1) as usize;
    let size = stack.word(0);
    let Some(line) = line_at(&terminal.lines, terminal.next_line) else {
        answer(regs, stack, 3, &[0], Code::Greater);
        return Ok(Ending::Running);
    };
    let stored = first_bytes(line, bytes_of_length(size));
    let count = stored.len();
    if !in_bounds(stack, first, count) {
        return Err(Trap::Bounds);
    }
    store_bytes(stack, first, stored);
    terminal.next_line += 1;
    answer(regs, stack, 3, &[in_unit(size, count as u16)], Code::Equal);
    Ok(Ending::Running)
}

/// READ: a word address, a length. Takes the next line and stores its first bytes, at most those of the length.
#[tactic(auto, using(hp_call_rows::proofs::GateLemmas::read_is, hp_call_rows::proofs::GateLemmas::too_few))]
pub(crate) fn read(
    regs: &mut Regs,
    stack: &mut Stack,
    terminal: &mut Terminal,
) -> Result<Ending, Trap>
    requires { (seen stack.old).in_registers ≡ 0 }
    ensures { ServesAs (performed Read) 1 regs.old (seen stack.old) terminal.old (came result)
        regs.new (seen stack.new) terminal.new }
{
    need(stack, 3)?;
    read_line(regs, stack, terminal)
}

/// Stores a text at a byte address, and answers how many bytes it has in place of `n` words.
#[tactic(auto, unfolding(hp_call_rows::specs::GateRows::text_answered), using(hp_call_rows::proofs::GateLemmas::stored_lengths))]
fn answer_text(
    regs: &mut Regs,
    stack: &mut Stack,
    n: u16,
    array: u16,
    text: &[u8],
) -> Result<Ending, Trap>
    requires none { (seen stack.old).in_registers ≡ 0 }
    requires short { length text.now ≤ 11 }
    requires some { 1 ≤ n }
    requires there { n ≤ length (seen stack.old).words }
    ensures { (t : Terminal) → ServesAs (text_answered n array text.now) 1 regs.old (seen stack.old) t (came result)
        regs.new (seen stack.new) t }
{
    let first = array as usize;
    if !in_bounds(stack, first, text.len()) {
        return Err(Trap::Bounds);
    }
    store_bytes(stack, first, text);
    answer(regs, stack, n, &[text.len() as u16], Code::Equal);
    Ok(Ending::Running)
}

/// ASCII: a word, a base, a byte address. Stores the word's text, in base ten with its sign or in base eight with six digits.
#[tactic(auto, using(hp_call_rows::proofs::GateLemmas::ascii_ten, hp_call_rows::proofs::GateLemmas::ascii_eight, hp_call_rows::proofs::GateLemmas::ascii_other, hp_call_rows::proofs::GateLemmas::too_few))]
pub(crate) fn ascii(regs: &mut Regs, stack: &mut Stack) -> Result<Ending, Trap>
    requires { (seen stack.old).in_registers ≡ 0 }
    ensures { (t : Terminal) → ServesAs (performed Ascii) 1 regs.old (seen stack.old) t (came result)
        regs.new (seen stack.new) t }
{
    need(stack, 4)?;
    let (w, base, array) = (stack.word(2), stack.word(1), stack.word(0));
    if base == 10 {
        return answer_text(regs, stack, 4, array, &decimal_text(signed_number(w)));
    }
    if base == 8 {
        return answer_text(regs, stack, 4, array, &octal_text(w as u32, 6));
    }
    answer(regs, stack, 4, &[0], Code::Less);
    Ok(Ending::Running)
}

/// DASCII: a double, a base, a byte address. Stores the double's text, in base eight with eleven digits.
#[tactic(auto, using(hp_call_rows::proofs::GateLemmas::dascii_ten, hp_call_rows::proofs::GateLemmas::dascii_eight, hp_call_rows::proofs::GateLemmas::dascii_other, hp_call_rows::proofs::GateLemmas::too_few))]
pub(crate) fn dascii(regs: &mut Regs, stack: &mut Stack) -> Result<Ending, Trap>
    requires { (seen stack.old).in_registers ≡ 0 }
    ensures { (t : Terminal) → ServesAs (performed Dascii) 1 regs.old (seen stack.old) t (came result)
        regs.new (seen stack.new) t }
{
    need(stack, 5)?;
    let d = double_of(stack.word(3), stack.word(2));
    let (base, array) = (stack.word(1), stack.word(0));
    if base == 10 {
        return answer_text(regs, stack, 5, array, &decimal_text(signed_double(d)));
    }
    if base == 8 {
        return answer_text(regs, stack, 5, array, &octal_text(d, 11));
    }
    answer(regs, stack, 5, &[0], Code::Less);
    Ok(Ending::Running)
}

/// The number in the text of BINARY and DBINARY. A negative length is bad form, and nothing is read.
#[tactic(auto, unfolding(hp_call_rows::specs::GateRows::number_there))]
fn number(stack: &Stack, wide: bool) -> Result<Number, Trap>
    requires { 2 ≤ length (seen stack.now).words }
    ensures { (m : Machine) → m.stack ≡ (seen stack.now).words → result ≡ number_there wide m }
{
    let first = stack.word(1) as usize;
    let count = stack.word(0) as usize;
    if count >= 32768 {
        return Ok(Number::BadForm);
    }
    if !in_bounds(stack, first, count) {
        return Err(Trap::Bounds);
    }
    Ok(number_at(stack, first, count, wide))
}

/// BINARY: a byte address, a length in bytes. Answers the number in that text as a word.
#[tactic(auto, using(hp_call_rows::proofs::GateLemmas::binary_is, hp_call_rows::proofs::GateLemmas::small_number, hp_call_rows::proofs::GateLemmas::too_few))]
pub(crate) fn binary(regs: &mut Regs, stack: &mut Stack) -> Result<Ending, Trap>
    requires { (seen stack.old).in_registers ≡ 0 }
    ensures { (t : Terminal) → ServesAs (performed Binary) 1 regs.old (seen stack.old) t (came result)
        regs.new (seen stack.new) t }
{
    need(stack, 3)?;
    let _length = stack.word(0);
    match number(stack, false)? {
        Number::Value(n) => answer(regs, stack, 3, &[n as u16], Code::Equal),
        Number::TooLarge => answer(regs, stack, 3, &[0], Code::Greater),
        Number::BadForm => answer(regs, stack, 3, &[0], Code::Less),
    }
    Ok(Ending::Running)
}

/// DBINARY: a byte address, a length in bytes. Answers the number in that text as a double, its low word on top.
#[tactic(auto, using(hp_call_rows::proofs::GateLemmas::dbinary_is, hp_call_rows::proofs::GateLemmas::too_few), unfolding(hp_word::specs::Bytes::high_word, hp_word::specs::Bytes::low_word))]
pub(crate) fn dbinary(regs: &mut Regs, stack: &mut Stack) -> Result<Ending, Trap>
    requires { (seen stack.old).in_registers ≡ 0 }
    ensures { (t : Terminal) → ServesAs (performed Dbinary) 2 regs.old (seen stack.old) t (came result)
        regs.new (seen stack.new) t }
{
    need(stack, 4)?;
    let _length = stack.word(0);
    match number(stack, true)? {
        Number::Value(n) => answer(regs, stack, 4, &[high_of(n), low_of(n)], Code::Equal),
        Number::TooLarge => answer(regs, stack, 4, &[0, 0], Code::Greater),
        Number::BadForm => answer(regs, stack, 4, &[0, 0], Code::Less),
    }
    Ok(Ending::Running)
}

/// QUIT: a number, read with its sign. Ends the session with it.
#[tactic(auto, using(hp_call_rows::proofs::GateLemmas::quit_is, hp_call_rows::proofs::GateLemmas::too_few))]
pub(crate) fn quit(stack: &mut Stack) -> Result<Ending, Trap>
    requires { (seen stack.old).in_registers ≡ 0 }
    ensures { (regs : Regs) (t : Terminal) → ServesAs (performed Quit) 0 regs (seen stack.old) t (came result)
        regs (seen stack.new) t }
{
    need(stack, 1)?;
    let number = signed_word(stack.word(0));
    stack.drop_words(1).unwrap();
    Ok(Ending::Quit(number))
}
