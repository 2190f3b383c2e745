//! The bytes of the stack, by their addresses from DB on, which are whole numbers and never wrap.
ghost use Rattle.std.specs.Prelude.{◌≡◌, ◌<◌, ◌≤◌, ◌+◌, ◌*◌, ◌/◌, ◌==◌, ◌||◌, ◌++◌, ◌⊎◌, length, map, nat_le, vec_capacity};
ghost use Rattle.hp_word.specs.Intrinsics.{addresses, stored_from};
ghost use Rattle.hp_word.specs.Texts.{number};
ghost use Rattle.hp_call_rows.specs.GateRows.{stack_byte, with_stack_byte, with_bytes};
ghost use Rattle.hp_tos.specs.StackView.{seen};
ghost use Rattle.mpe_gate.specs.Words.{with_words};

use arrayvec::ArrayVec;
use hp_session::{byte_of, with_byte};
use hp_tos::Stack;
use hp_word::{Number, read_number};

/// Whether `count` bytes from an address on are in bounds.
pub(crate) fn in_bounds(stack: &Stack, first: usize, count: usize) -> bool
    requires first { first ≤ 131070 }
    requires count { count ≤ 65534 }
    ensures { result ≡ (count == 0 || nat_le (first + count) (2 * length (seen stack.now).words)) }
{
    count == 0 || first + count <= 2 * stack.words() as usize
}

/// The byte at an address.
pub(crate) fn byte_at(stack: &Stack, b: usize) -> u8
    requires { b / 2 < length (seen stack.now).words }
    ensures { result ≡ stack_byte (seen stack.now).words b }
{
    let _words = stack.words();
    let word = stack.read_stack((b / 2) as u16).unwrap();
    byte_of(b, word)
}

/// Puts another byte at an address.
pub(crate) fn put_byte(stack: &mut Stack, b: usize, byte: u8)
    requires { b / 2 < length (seen stack.old).words }
    ensures { seen stack.new ≡ with_words (with_stack_byte (seen stack.old).words b byte) (seen stack.old) }
{
    let _words = stack.words();
    let address = (b / 2) as u16;
    let word = stack.read_stack(address).unwrap();
    stack
        .write_stack(address, with_byte(b, byte, word))
        .unwrap();
}

/// Stores bytes from an address upwards.
#[tactic(auto, using(hp_call_rows::proofs::ByteLemmas::store_steps))]
pub(crate) fn store_bytes(stack: &mut Stack, first: usize, bytes: &[u8])
    requires first { first ≤ 131070 }
    requires within { (length bytes.now ≡ 0) ⊎ (first + length bytes.now ≤ 2 * length (seen stack.old).words) }
    ensures { seen stack.new ≡ with_words (with_bytes (seen stack.old).words (stored_from first bytes.now)) (seen stack.old) }
{
    let mut b = first;
    for &byte in bytes {
        put_byte(stack, b, byte);
        b += 1;
    }
}

/// Appends the bytes from an address on to what is printed, for which memory is reserved.
#[tactic(auto, using(hp_call_rows::proofs::ByteLemmas::bytes_after, hp_call_rows::proofs::ByteLemmas::none_after))]
fn append_bytes(printed: &mut Vec<u8>, stack: &Stack, first: usize, count: usize)
    requires first { first ≤ 131070 }
    requires within { (count ≡ 0) ⊎ (first + count ≤ 2 * length (seen stack.now).words) }
    requires room { length printed.old.items + count ≤ vec_capacity printed.old }
    ensures value { printed.new.items ≡ printed.old.items ++ map (stack_byte (seen stack.now).words) (addresses first count) }
    ensures counted { length printed.new.items ≡ length printed.old.items + count }
    ensures same { vec_capacity printed.new ≡ vec_capacity printed.old }
{
    for k in 0..count {
        printed.push_reserved(byte_at(stack, first + k));
    }
}

/// Appends these bytes to what is printed, for which memory is reserved.
fn append(printed: &mut Vec<u8>, bytes: &[u8])
    requires { length printed.old.items + length bytes.now ≤ vec_capacity printed.old }
    ensures value { printed.new.items ≡ printed.old.items ++ bytes.now }
    ensures same { vec_capacity printed.new ≡ vec_capacity printed.old }
{
    for &byte in bytes {
        printed.push_reserved(byte);
    }
}

/// Appends the bytes from an address on, and then others, to what is printed.
#[tactic(auto, using(std::proofs::lemmas::List::append_assoc))]
pub(crate) fn print_bytes(
    printed: &mut Vec<u8>,
    stack: &Stack,
    first: usize,
    count: usize,
    feed: &[u8],
)
    requires first { first ≤ 131070 }
    requires within { (count ≡ 0) ⊎ (first + count ≤ 2 * length (seen stack.now).words) }
    requires room { length printed.old.items + (count + length feed.now) ≤ vec_capacity printed.old }
    ensures value { printed.new.items ≡ printed.old.items ++ (map (stack_byte (seen stack.now).words) (addresses first count) ++ feed.now) }
    ensures counted { length printed.new.items ≡ length printed.old.items + (count + length feed.now) }
    ensures same { vec_capacity printed.new ≡ vec_capacity printed.old }
{
    append_bytes(printed, stack, first, count);
    append(printed, feed);
}

/// The number in the text at an address.
#[tactic(auto, using(hp_call_rows::proofs::ByteLemmas::byte_steps))]
pub(crate) fn number_at(stack: &Stack, first: usize, count: usize, wide: bool) -> Number
    requires first { first ≤ 131070 }
    requires count { count ≤ 32767 }
    requires within { (count ≡ 0) ⊎ (first + count ≤ 2 * length (seen stack.now).words) }
    ensures { result ≡ number (map (stack_byte (seen stack.now).words) (addresses first count)) wide }
{
    let mut text: ArrayVec<u8, 32767> = ArrayVec::new();
    for k in 0..count {
        text.push(byte_at(stack, first + k));
    }
    read_number(&text, wide)
}
