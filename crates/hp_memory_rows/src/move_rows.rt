//! The rows of moves, scans and byte comparisons, one element a step.
ghost use Rattle.std.specs.Prelude.{◌≡◌, ◌<◌, ◌≤◌, length};
ghost use Rattle.hp_word.specs.Bytes.{byte_at};
ghost use Rattle.hp_session.specs.State.{Does, passed, with_code, without};
ghost use Rattle.hp_memory_rows.specs.MoveRows.{onward, nearer, element_done, source_word, source_byte, words_moved, bytes_moved, is_of_class, as_moved, bytes_moved_while, byte_passed, scan_ended, scanned_while, scanned_until, bytes_compared, move_row};
ghost use Rattle.hp_program.specs.Programs.{segments_of};

use crate::code_words::read_code;
use hp_instr::control;
use hp_program::Program;
use hp_session::{Place, Session, byte_of};
use hp_word::{Code, Trap};

/// The address after `a` in the direction of a count: upwards where that is positive, downwards where it is negative.
#[inline]
#[tactic(auto, unfolding(crate::specs::MoveRows::onward))]
pub fn onward(count: u16, a: u16) -> u16
    ensures { result ≡ onward count a }
{
    if count < 32768 {
        a.wrapping_add(1)
    } else {
        a.wrapping_sub(1)
    }
}

/// A count one nearer to 0.
#[inline]
#[tactic(auto, unfolding(crate::specs::MoveRows::nearer))]
pub fn nearer(count: u16) -> u16
    ensures { result ≡ nearer count }
{
    if count < 32768 {
        count.wrapping_sub(1)
    } else {
        count.wrapping_add(1)
    }
}

/// Whether a byte is of the class of an MVBW: 1 in its number is for digits, 2 for letters.
#[tactic(auto, unfolding(crate::specs::MoveRows::is_of_class))]
pub fn is_of_class(n: u8, byte: u8) -> bool
    ensures { result ≡ is_of_class n byte }
{
    let digit = b'0' <= byte && byte <= b'9';
    let letter = b'A' <= byte && byte <= b'Z' || b'a' <= byte && byte <= b'z';
    n % 2 == 1 && digit || n / 2 % 2 == 1 && letter
}

/// A byte as an MVBW moves it: with 4 in its number small letters become capitals.
#[tactic(auto, unfolding(crate::specs::MoveRows::as_moved))]
pub fn as_moved(n: u8, byte: u8) -> u8
    ensures { result ≡ as_moved n byte }
{
    if n / 4 % 2 == 1 && b'a' <= byte && byte <= b'z' {
        byte - 32
    } else {
        byte
    }
}

/// Goes on to the next element.
#[tactic(auto, unfolding(crate::specs::MoveRows::element_done))]
fn finish_element(session: &mut Session, c: u16, b: u16, a: u16)
    requires { 3 ≤ length session.old.stack }
    ensures { session.new ≡ element_done c b a session.old }
{
    session.replace(3, &[onward(a, c), onward(a, b), nearer(a)]);
}

/// The word that MOVE moves.
#[tactic(auto, unfolding(crate::specs::MoveRows::source_word))]
fn source_word(session: &Session, program: &Program, code: bool, a: u16) -> Result<u16, Trap>
    ensures { result ≡ source_word (segments_of program.now) code a session.now }
{
    if code {
        read_code(session, program, a)
    } else {
        session.read_at(Place::Db(a))
    }
}

/// The byte that MVB moves, or that CMPB compares with.
#[tactic(auto, unfolding(crate::specs::MoveRows::source_byte))]
fn source_byte(session: &Session, program: &Program, code: bool, b: u16) -> Result<u8, Trap>
    ensures { result ≡ source_byte (segments_of program.now) code b session.now }
{
    if code {
        let word = read_code(session, program, b / 2)?;
        Ok(byte_of(b as usize, word))
    } else {
        session.read_byte(Place::Db(b))
    }
}

/// MOVE.
#[tactic(auto, unfolding(crate::specs::MoveRows::words_moved))]
fn move_word(session: &mut Session, program: &Program, code: bool) -> Result<(), Trap>
    ensures { Does (words_moved (segments_of program.now) code session.old) session.old result session.new }
{
    session.need(3)?;
    let (c, b, a) = (session.word(2), session.word(1), session.word(0));
    if a == 0 {
        session.delete(2);
        session.pass();
        return Ok(());
    }
    let word = source_word(session, program, code, b)?;
    session.write_at(Place::Db(c), word)?;
    finish_element(session, c, b, a);
    Ok(())
}

/// MVB.
#[tactic(auto, unfolding(crate::specs::MoveRows::bytes_moved))]
fn move_byte(session: &mut Session, program: &Program, code: bool) -> Result<(), Trap>
    ensures { Does (bytes_moved (segments_of program.now) code session.old) session.old result session.new }
{
    session.need(3)?;
    let (c, b, a) = (session.word(2), session.word(1), session.word(0));
    if a == 0 {
        session.delete(2);
        session.pass();
        return Ok(());
    }
    let byte = source_byte(session, program, code, b)?;
    session.write_byte(Place::Db(c), byte)?;
    finish_element(session, c, b, a);
    Ok(())
}

/// MVBW.
#[tactic(auto, unfolding(crate::specs::MoveRows::bytes_moved_while))]
fn move_byte_while(session: &mut Session, n: u8) -> Result<(), Trap>
    ensures { Does (bytes_moved_while n session.old) session.old result session.new }
{
    session.need(2)?;
    let (b, a) = (session.word(1), session.word(0));
    let byte = session.read_byte(Place::Db(a))?;
    if !is_of_class(n, byte) {
        session.delete(1);
        session.pass();
        return Ok(());
    }
    session.write_byte(Place::Db(b), as_moved(n, byte))?;
    session.replace(2, &[b.wrapping_add(1), a.wrapping_add(1)]);
    Ok(())
}

/// Goes past a byte of a scan.
fn pass_byte(session: &mut Session)
    requires { 2 ≤ length session.old.stack }
    ensures { session.new ≡ byte_passed session.old }
{
    let (b, a) = (session.word(1), session.word(0));
    session.replace(2, &[b.wrapping_add(1), a]);
}

/// Ends a scan.
#[tactic(auto, unfolding(crate::specs::MoveRows::scan_ended))]
fn end_scan(session: &mut Session, byte: u8)
    requires { 2 ≤ length session.old.stack }
    ensures { session.new ≡ scan_ended byte session.old }
{
    let test = session.word(0);
    session.regs.carry = byte as u16 == test / 256 && !(byte as u16 == test % 256);
    session.delete(1);
    session.pass();
}

/// SCW.
#[tactic(auto, unfolding(crate::specs::MoveRows::scanned_while))]
fn scan_while(session: &mut Session) -> Result<(), Trap>
    ensures { Does (scanned_while session.old) session.old result session.new }
{
    session.need(2)?;
    let byte = session.read_byte(Place::Db(session.word(1)))?;
    if byte as u16 == session.word(0) % 256 {
        pass_byte(session);
    } else {
        end_scan(session, byte);
    }
    Ok(())
}

/// SCU.
#[tactic(auto, unfolding(crate::specs::MoveRows::scanned_until))]
fn scan_until(session: &mut Session) -> Result<(), Trap>
    ensures { Does (scanned_until session.old) session.old result session.new }
{
    session.need(2)?;
    let byte = session.read_byte(Place::Db(session.word(1)))?;
    let test = session.word(0);
    if byte as u16 == test / 256 || byte as u16 == test % 256 {
        end_scan(session, byte);
    } else {
        pass_byte(session);
    }
    Ok(())
}

/// Ends a comparison.
fn end_comparison(session: &mut Session, code: Code)
    ensures { session.new ≡ passed (with_code code (without 3 session.old)) }
{
    session.delete_coded(3, code);
    session.pass();
}

/// CMPB.
#[tactic(auto, unfolding(crate::specs::MoveRows::bytes_compared))]
fn compare_byte(session: &mut Session, program: &Program, code: bool) -> Result<(), Trap>
    ensures { Does (bytes_compared (segments_of program.now) code session.old) session.old result session.new }
{
    session.need(3)?;
    let (c, b, a) = (session.word(2), session.word(1), session.word(0));
    if a == 0 {
        end_comparison(session, Code::Equal);
        return Ok(());
    }
    let first = session.read_byte(Place::Db(c))?;
    let second = source_byte(session, program, code, b)?;
    if first == second {
        finish_element(session, c, b, a);
    } else {
        end_comparison(
            session,
            if second < first {
                Code::Greater
            } else {
                Code::Less
            },
        );
    }
    Ok(())
}

/// The row of a code of major 3 from 9 on.
#[tactic(auto, unfolding(crate::specs::MoveRows::move_row))]
pub fn move_element(session: &mut Session, program: &Program, which: u8, n: u8) -> Result<(), Trap>
    ensures { Does (move_row (segments_of program.now) which n session.old) session.old result session.new }
{
    match which {
        control::MOVE => move_word(session, program, n == 1),
        control::MVB => move_byte(session, program, n == 1),
        control::MVBW => move_byte_while(session, n),
        control::SCW => scan_while(session),
        control::SCU => scan_until(session),
        _ => compare_byte(session, program, n == 1),
    }
}
