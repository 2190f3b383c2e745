//! The rows of the intrinsics.
ghost use Rattle.std.specs.Prelude.{◌≡◌, ◌<◌, ◌≤◌, length, slice_get};
ghost use Rattle.hp_word.specs.declared.intrinsics.Intrinsic.TheVariants.{Print, Read, Ascii, Dascii, Binary, Dbinary, Terminate, Quit};
ghost use Rattle.hp_session.specs.State.{Does, with_code, replaced};
ghost use Rattle.hp_call_rows.specs.GateRows.{performed, served, text_answered, line_read, number_there};

use crate::stack_bytes::{
    bytes_of_length, feed_of, first_bytes, in_bounds, in_unit, line_at, number_at, print_bytes,
    signed_double, signed_number, store_bytes,
};
use hp_session::{Session, double_of, high_of, low_of, signed_word};
use hp_word::{Code, Ending, Number, Trap, decimal_text, octal_text};

/// Puts an answer in place of `n` words, with its code.
fn answer(session: &mut Session, n: usize, words: &[u16], code: Code)
    requires enough { length words.now ≤ n }
    requires there { n ≤ length session.old.stack }
    ensures { session.new ≡ with_code code (replaced n words.now session.old) }
{
    session.replace(n, words);
    session.regs.code = code;
}

/// PRINT.
#[tactic(auto, using(crate::proofs::GateLemmas::print_is, crate::proofs::GateLemmas::too_few))]
fn print(session: &mut Session) -> Result<(), Trap>
    ensures { Does (performed Print session.old) session.old result session.new }
{
    session.need(3)?;
    let _limit = session.stack_limit;
    let first = 2 * session.word(2) as usize;
    let count = bytes_of_length(session.word(1));
    let feed = feed_of(session.word(0));
    if !in_bounds(&session.stack, first, count) {
        return Err(Trap::Bounds);
    }
    if session.room as usize - session.printed.len() < count + feed.len() {
        return Err(Trap::OutputLimit);
    }
    print_bytes(&mut session.printed, &session.stack, first, count, feed);
    answer(session, 3, &[], Code::Equal);
    Ok(())
}

/// Stores the first bytes of the next line, if there is one, and answers how many.
#[tactic(auto, using(crate::proofs::GateLemmas::stored_lengths))]
fn read_line(session: &mut Session) -> Result<(), Trap>
    requires { 3 ≤ length session.old.stack }
    ensures { Does (line_read (slice_get session.old.lines session.old.next_line) session.old) session.old result session.new }
{
    let _limit = session.stack_limit;
    let first = 2 * session.word(1) as usize;
    let size = session.word(0);
    let Some(line) = line_at(&session.lines, session.next_line) else {
        answer(session, 3, &[0], Code::Greater);
        return Ok(());
    };
    let stored = first_bytes(line, bytes_of_length(size));
    let count = stored.len();
    if !in_bounds(&session.stack, first, count) {
        return Err(Trap::Bounds);
    }
    store_bytes(&mut session.stack, first, stored);
    session.next_line += 1;
    answer(session, 3, &[in_unit(size, count as u16)], Code::Equal);
    Ok(())
}

/// READ.
#[tactic(auto, using(crate::proofs::GateLemmas::read_is, crate::proofs::GateLemmas::too_few))]
fn read(session: &mut Session) -> Result<(), Trap>
    ensures { Does (performed Read session.old) session.old result session.new }
{
    session.need(3)?;
    read_line(session)
}

/// Stores a text at a byte address, and answers how many bytes it has in place of `n` words.
#[tactic(auto, unfolding(crate::specs::GateRows::text_answered), using(crate::proofs::GateLemmas::stored_lengths))]
fn answer_text(session: &mut Session, n: usize, array: u16, text: &[u8]) -> Result<(), Trap>
    requires short { length text.now ≤ 11 }
    requires some { 1 ≤ n }
    requires there { n ≤ length session.old.stack }
    ensures { Does (text_answered n array text.now session.old) session.old result session.new }
{
    let _limit = session.stack_limit;
    let first = array as usize;
    if !in_bounds(&session.stack, first, text.len()) {
        return Err(Trap::Bounds);
    }
    store_bytes(&mut session.stack, first, text);
    answer(session, n, &[text.len() as u16], Code::Equal);
    Ok(())
}

/// ASCII.
#[tactic(auto, using(crate::proofs::GateLemmas::ascii_ten, crate::proofs::GateLemmas::ascii_eight, crate::proofs::GateLemmas::ascii_other, crate::proofs::GateLemmas::too_few))]
fn ascii(session: &mut Session) -> Result<(), Trap>
    ensures { Does (performed Ascii session.old) session.old result session.new }
{
    session.need(4)?;
    let (w, base, array) = (session.word(2), session.word(1), session.word(0));
    if base == 10 {
        return answer_text(session, 4, array, &decimal_text(signed_number(w)));
    }
    if base == 8 {
        return answer_text(session, 4, array, &octal_text(w as u32, 6));
    }
    answer(session, 4, &[0], Code::Less);
    Ok(())
}

/// DASCII.
#[tactic(auto, using(crate::proofs::GateLemmas::dascii_ten, crate::proofs::GateLemmas::dascii_eight, crate::proofs::GateLemmas::dascii_other, crate::proofs::GateLemmas::too_few))]
fn dascii(session: &mut Session) -> Result<(), Trap>
    ensures { Does (performed Dascii session.old) session.old result session.new }
{
    session.need(5)?;
    let d = double_of(session.word(3), session.word(2));
    let (base, array) = (session.word(1), session.word(0));
    if base == 10 {
        return answer_text(session, 5, array, &decimal_text(signed_double(d)));
    }
    if base == 8 {
        return answer_text(session, 5, array, &octal_text(d, 11));
    }
    answer(session, 5, &[0], Code::Less);
    Ok(())
}

/// The number in the text of BINARY and DBINARY.
#[tactic(auto, unfolding(crate::specs::GateRows::number_there))]
fn number(session: &Session, wide: bool) -> Result<Number, Trap>
    requires { 2 ≤ length session.now.stack }
    ensures { result ≡ number_there wide session.now }
{
    let _limit = session.stack_limit;
    let first = session.word(1) as usize;
    let count = session.word(0) as usize;
    if count >= 32768 {
        return Ok(Number::BadForm);
    }
    if !in_bounds(&session.stack, first, count) {
        return Err(Trap::Bounds);
    }
    Ok(number_at(&session.stack, first, count, wide))
}

/// BINARY.
#[tactic(auto, using(crate::proofs::GateLemmas::binary_is, crate::proofs::GateLemmas::small_number, crate::proofs::GateLemmas::too_few))]
fn binary(session: &mut Session) -> Result<(), Trap>
    ensures { Does (performed Binary session.old) session.old result session.new }
{
    session.need(3)?;
    let _length = session.word(0);
    match number(session, false)? {
        Number::Value(n) => answer(session, 3, &[n as u16], Code::Equal),
        Number::TooLarge => answer(session, 3, &[0], Code::Greater),
        Number::BadForm => answer(session, 3, &[0], Code::Less),
    }
    Ok(())
}

/// DBINARY.
#[tactic(auto, using(crate::proofs::GateLemmas::dbinary_is, crate::proofs::GateLemmas::too_few), unfolding(hp_word::specs::Bytes::high_word, hp_word::specs::Bytes::low_word))]
fn dbinary(session: &mut Session) -> Result<(), Trap>
    ensures { Does (performed Dbinary session.old) session.old result session.new }
{
    session.need(4)?;
    let _length = session.word(0);
    match number(session, true)? {
        Number::Value(n) => answer(session, 4, &[high_of(n), low_of(n)], Code::Equal),
        Number::TooLarge => answer(session, 4, &[0, 0], Code::Greater),
        Number::BadForm => answer(session, 4, &[0, 0], Code::Less),
    }
    Ok(())
}

/// TERMINATE.
#[tactic(auto, using(crate::proofs::GateLemmas::terminate_is))]
fn terminate(session: &mut Session) -> Result<(), Trap>
    ensures { Does (performed Terminate session.old) session.old result session.new }
{
    session.ending = Ending::Terminated;
    Ok(())
}

/// QUIT.
#[tactic(auto, using(crate::proofs::GateLemmas::quit_is, crate::proofs::GateLemmas::too_few))]
fn quit(session: &mut Session) -> Result<(), Trap>
    ensures { Does (performed Quit session.old) session.old result session.new }
{
    session.need(1)?;
    let number = signed_word(session.word(0));
    session.delete(1);
    session.ending = Ending::Quit(number);
    Ok(())
}

/// An intrinsic, by the entry of the gate.
#[tactic(auto, unfolding(crate::specs::GateRows::served))]
pub(crate) fn serve(session: &mut Session, entry: u8) -> Result<(), Trap>
    ensures { Does (served entry session.old) session.old result session.new }
{
    match entry {
        1 => print(session),
        2 => read(session),
        3 => ascii(session),
        4 => dascii(session),
        5 => binary(session),
        6 => dbinary(session),
        7 => terminate(session),
        8 => quit(session),
        _ => Err(Trap::BadEntry),
    }
}
