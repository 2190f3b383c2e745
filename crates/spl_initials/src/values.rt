//! Initial values of each kind, one behind the other.
ghost use Rattle.std.specs.Prelude.{◌≡◌, map};
ghost use Rattle.spl_tree.specs.Views as trees;
ghost use Rattle.spl_sorts.specs.spl_meaning.Names as n;
ghost use Rattle.spl_sorts.specs.spl_meaning.Places as places;
ghost use Rattle.spl_sorts.specs.Tables.{names_of};
ghost use Rattle.spl_initials.specs.Memory.{memory_of};

use crate::memory::{double_of, high_word, low_word, put_byte, store, word_of};
use spl_places::constant_or_zero;
use spl_sorts::Names;
use spl_tree::{Const, Kind};

/// Stores the j-th value of a kind from an address on, where there are its words: a DOUBLE has its high word
/// first, and a BYTE half a word.
pub fn put_value(words: &mut [u16], kind: Kind, address: u64, j: u64, value: i64)
    ensures { memory_of words.new ≡ places.put_value kind address j value (memory_of words.old) }
{
    let from = u128::from(address);
    let behind = u128::from(j);
    match kind {
        Kind::Double => {
            let double = double_of(value);
            store(words, from + 2 * behind + 1, low_word(double));
            store(words, from + 2 * behind, high_word(double));
        }
        Kind::Byte => {
            let byte = (word_of(i128::from(value)) % 256) as u8;
            put_byte(words, 2 * from + behind, byte);
        }
        Kind::Integer | Kind::Logical => {
            store(words, from + behind, word_of(i128::from(value)));
        }
    }
}

/// Stores the values of constants, one behind the other from an address on.
pub fn put_constants(
    words: &mut [u16],
    names: &Names<'_>,
    kind: Kind,
    address: u64,
    values: &[Const],
)
    ensures { memory_of words.new ≡ places.put_values kind address 0 (map (n.constant_or_zero (names_of names.now)) (map trees.constant values.now)) (memory_of words.old) }
{
    for j in 0..values.len() {
        let value = constant_or_zero(names, &values[j]);
        put_value(words, kind, address, j as u64, value);
    }
}
