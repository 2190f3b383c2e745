//! The bytes of the stack, by their addresses from DB on, which are whole numbers and never wrap.
ghost use Rattle.std.specs.Prelude.{◌≡◌, ◌<◌, ◌≤◌, ◌+◌, ◌*◌, ◌/◌, ◌==◌, ◌||◌, ◌++◌, ◌∷◌, [], ◌⊎◌, if◌then◌else◌, length, map, take, nat_le, vec_capacity, option_map, slice_get, IfSome};
ghost use Rattle.hp_word.specs.Words.{signed, signed_double};
ghost use Rattle.hp_word.specs.Intrinsics.{addresses, stored_from, bytes_of_length, in_unit_of_length};
ghost use Rattle.hp_word.specs.Texts.{number};
ghost use Rattle.hp_session.specs.SessionView.{lines_of};
ghost use Rattle.hp_call_rows.specs.GateRows.{stack_byte, with_stack_byte, with_bytes};

use arrayvec::ArrayVec;
use hp_session::{Line, byte_of, with_byte};
use hp_word::{Number, read_number};

/// How many bytes a length of PRINT or READ says: two for each word, or, where the length is negative as a signed word, as many as
/// minus the length. At most 65,534.
#[tactic(auto, unfolding(hp_word::specs::Words::signed))]
pub fn bytes_of_length(size: u16) -> usize
    ensures value { result ≡ bytes_of_length (signed size) }
    ensures bound { result ≤ 65534 }
{
    if size < 32768 {
        2 * size as usize
    } else {
        65536 - size as usize
    }
}

/// A count of bytes in the unit of a length: in words, rounded up, or in bytes where the length is negative as a signed word.
#[tactic(auto, unfolding(hp_word::specs::Words::signed))]
pub fn in_unit(size: u16, count: u16) -> u16
    ensures { result ≡ in_unit_of_length (signed size) count }
{
    if size < 32768 {
        ((count as u32 + 1) / 2) as u16
    } else {
        count
    }
}

/// Whether `count` bytes from an address on are in bounds.
#[inline]
pub(crate) fn in_bounds(words: &[u16], first: usize, count: usize) -> bool
    requires first { first ≤ 131070 }
    requires count { count ≤ 65534 }
    requires words { length words.now ≤ 65535 }
    ensures { result ≡ (count == 0 || nat_le (first + count) (2 * length words.now)) }
{
    count == 0 || first + count <= 2 * words.len()
}

/// The byte at an address.
#[inline]
pub(crate) fn byte_at(words: &[u16], b: usize) -> u8
    requires { b / 2 < length words.now }
    ensures { result ≡ stack_byte words.now b }
{
    byte_of(b, words[b / 2])
}

/// Puts another byte at an address.
#[inline]
pub(crate) fn put_byte(words: &mut [u16], b: usize, byte: u8)
    requires { b / 2 < length words.old }
    ensures value { words.new ≡ with_stack_byte words.old b byte }
    ensures same { length words.new ≡ length words.old }
{
    words[b / 2] = with_byte(b, byte, words[b / 2]);
}

/// Stores bytes from an address upwards.
#[tactic(auto, using(crate::proofs::ByteLemmas::store_steps))]
pub(crate) fn store_bytes(words: &mut [u16], first: usize, bytes: &[u8])
    requires first { first ≤ 131070 }
    requires within { (length bytes.now ≡ 0) ⊎ (first + length bytes.now ≤ 2 * length words.old) }
    ensures value { words.new ≡ with_bytes words.old (stored_from first bytes.now) }
    ensures same { length words.new ≡ length words.old }
{
    let mut b = first;
    for &byte in bytes {
        put_byte(words, b, byte);
        b += 1;
    }
}

/// Appends the bytes from an address on to what is printed.
#[tactic(auto, using(crate::proofs::ByteLemmas::bytes_after, crate::proofs::ByteLemmas::none_after))]
pub(crate) fn append_bytes(printed: &mut Vec<u8>, words: &[u16], first: usize, count: usize)
    requires first { first ≤ 131070 }
    requires within { (count ≡ 0) ⊎ (first + count ≤ 2 * length words.now) }
    requires room { length printed.old.items + count ≤ vec_capacity printed.old }
    ensures value { printed.new.items ≡ printed.old.items ++ map (stack_byte words.now) (addresses first count) }
    ensures counted { length printed.new.items ≡ length printed.old.items + count }
    ensures same { vec_capacity printed.old ≤ vec_capacity printed.new }
{
    for k in 0..count {
        printed.push(byte_at(words, first + k)).unwrap();
    }
}

/// What PRINT prints behind its bytes: a line feed, unless its control is exactly %320.
pub fn feed_of(control: u16) -> &'static [u8]
    ensures { result.now ≡ (if control == 0o320 then [] else 10 ∷ []) }
{
    if control == 0o320 { &[] } else { &[10] }
}

/// Appends the bytes from an address on, and then others, to what is printed.
#[tactic(auto, using(std::proofs::lemmas::List::append_assoc))]
pub(crate) fn print_bytes(
    printed: &mut Vec<u8>,
    words: &[u16],
    first: usize,
    count: usize,
    feed: &[u8],
)
    requires first { first ≤ 131070 }
    requires within { (count ≡ 0) ⊎ (first + count ≤ 2 * length words.now) }
    requires room { length printed.old.items + (count + length feed.now) ≤ vec_capacity printed.old }
    ensures value { printed.new.items ≡ printed.old.items ++ (map (stack_byte words.now) (addresses first count) ++ feed.now) }
    ensures counted { length printed.new.items ≡ length printed.old.items + (count + length feed.now) }
    ensures same { vec_capacity printed.old ≤ vec_capacity printed.new }
{
    append_bytes(printed, words, first, count);
    printed.extend_from_slice(feed).unwrap();
}

/// The bytes of line `n`, counted from 0, if there is one.
pub fn line_at(lines: &[Line], n: usize) -> Option<&[u8]>
    ensures value { option_map (λ l. l.now) result ≡ slice_get (lines_of lines.now) n }
    ensures there { IfSome result (λ _. n < length lines.now) }
{
    if n < lines.len() {
        Some(lines[n].bytes.as_slice())
    } else {
        None
    }
}

/// The first bytes of a line, at most `most`: all of a shorter one.
pub fn first_bytes(line: &[u8], most: usize) -> &[u8]
    ensures { result.now ≡ take most line.now }
{
    if most < line.len() {
        &line[..most]
    } else {
        line
    }
}

/// A word read with its sign, from -32,768 to 32,767.
#[tactic(auto, unfolding(hp_word::specs::Words::signed))]
pub fn signed_number(w: u16) -> i32
    ensures { result ≡ signed w }
{
    if w < 32768 {
        w as i32
    } else {
        w as i32 - 65536
    }
}

/// A double read with its sign, from -2,147,483,648 to 2,147,483,647.
#[tactic(auto, unfolding(hp_word::specs::Words::signed_double))]
pub fn signed_double(d: u32) -> i32
    ensures { result ≡ signed_double d }
{
    if d < 2147483648 {
        d as i32
    } else {
        (d as i64 - 4294967296) as i32
    }
}

/// The number in the text at an address.
#[tactic(auto, using(crate::proofs::ByteLemmas::byte_steps))]
pub(crate) fn number_at(words: &[u16], first: usize, count: usize, wide: bool) -> Number
    requires first { first ≤ 131070 }
    requires count { count ≤ 32767 }
    requires within { (count ≡ 0) ⊎ (first + count ≤ 2 * length words.now) }
    ensures { result ≡ number (map (stack_byte words.now) (addresses first count)) wide }
{
    let mut text: ArrayVec<u8, 32767> = ArrayVec::new();
    for k in 0..count {
        text.push(byte_at(words, first + k));
    }
    read_number(&text, wide)
}
