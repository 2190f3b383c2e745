//! Data words by their addresses.
ghost use Rattle.std.specs.Prelude.{◌≡◌, ◌<◌, ◌%◌, ◌/◌};
ghost use Rattle.hp_word.specs.Words.{word_of, double_of};
ghost use Rattle.hp_word.specs.Bytes.{high_word, low_word, with_byte};
ghost use Rattle.spl_sorts.specs.spl_meaning.Places as places;
ghost use Rattle.spl_initials.specs.Memory.{memory_of};

/// A whole number modulo 65,536.
#[tactic(auto, unfolding(hp_word::specs::Words::word_of))]
pub fn word_of(value: i128) -> u16
    ensures { result ≡ word_of value }
{
    value.rem_euclid(65536) as u16
}

/// A whole number modulo 4,294,967,296.
#[tactic(auto, unfolding(hp_word::specs::Words::double_of))]
pub fn double_of(value: i64) -> u32
    ensures { result ≡ double_of value }
{
    value.rem_euclid(4294967296) as u32
}

/// The high word of a double.
#[tactic(auto, unfolding(hp_word::specs::Bytes::high_word))]
pub fn high_word(double: u32) -> u16
    ensures { result ≡ high_word double }
{
    (double / 65536) as u16
}

/// The low word of a double.
#[tactic(auto, unfolding(hp_word::specs::Bytes::low_word))]
pub fn low_word(double: u32) -> u16
    ensures { result ≡ low_word double }
{
    (double % 65536) as u16
}

/// A word with another byte in it: the left half at an even address, and else the right half.
#[tactic(auto, unfolding(hp_word::specs::Bytes::with_byte))]
fn with_byte(address: u128, byte: u8, word: u16) -> u16
    ensures { result ≡ with_byte address byte word }
{
    if address % 2 == 0 {
        256 * u16::from(byte) + word % 256
    } else {
        word / 256 * 256 + u16::from(byte)
    }
}

/// The data word at an address, or zero where there is none.
pub fn word_at(words: &[u16], address: u128) -> u16
    ensures { result ≡ places.word_or_zero (memory_of words.now address) }
{
    if address < words.len() as u128 {
        words[address as usize]
    } else {
        0
    }
}

/// Stores a data word at an address, where there is one.
pub fn store(words: &mut [u16], address: u128, word: u16)
    ensures { memory_of words.new ≡ places.stored address word (memory_of words.old) }
{
    if address < words.len() as u128 {
        words[address as usize] = word;
    }
}

/// Stores a byte at a byte address, where there is its word.
pub fn put_byte(words: &mut [u16], address: u128, byte: u8)
    ensures { memory_of words.new ≡ places.put_byte address byte (memory_of words.old) }
{
    let word = with_byte(address, byte, word_at(words, address / 2));
    store(words, address / 2, word);
}
