//! Bytes of words, words of doubles, and their signs and codes.
ghost use Rattle.std.specs.Prelude.{◌≡◌};
ghost use Rattle.hp_word.specs.Words.{signed, word_code};
ghost use Rattle.hp_word.specs.Bytes.{byte_at, with_byte, double, high_word, low_word};

use hp_word::Code;

/// The condition code of a word.
#[inline]
pub fn code_of(w: u16) -> Code
    ensures { result ≡ word_code w }
{
    hp_word::cmp(w, 0)
}

/// The double of two words.
#[inline]
#[tactic(auto, unfolding(hp_word::specs::Bytes::double))]
pub fn double_of(high: u16, low: u16) -> u32
    ensures { result ≡ double high low }
{
    high as u32 * 65536 + low as u32
}

/// A double's high word.
#[inline]
#[tactic(auto, unfolding(hp_word::specs::Bytes::high_word))]
pub fn high_of(d: u32) -> u16
    ensures { result ≡ high_word d }
{
    (d / 65536) as u16
}

/// A double's low word.
#[inline]
#[tactic(auto, unfolding(hp_word::specs::Bytes::low_word))]
pub fn low_of(d: u32) -> u16
    ensures { result ≡ low_word d }
{
    (d % 65536) as u16
}

/// A word read with its sign.
#[inline]
#[tactic(auto, unfolding(hp_word::specs::Words::signed))]
pub fn signed_word(w: u16) -> i16
    ensures { result ≡ signed w }
{
    if w < 32768 {
        w as i16
    } else {
        (w as i32 - 65536) as i16
    }
}

/// The byte at a byte address, of the word that holds it.
#[inline]
#[tactic(auto, unfolding(hp_word::specs::Bytes::byte_at))]
pub fn byte_of(address: usize, w: u16) -> u8
    ensures { result ≡ byte_at address w }
{
    if address % 2 == 0 {
        (w / 256) as u8
    } else {
        (w % 256) as u8
    }
}

/// A word with another byte at a byte address.
#[inline]
#[tactic(auto, unfolding(hp_word::specs::Bytes::with_byte))]
pub fn with_byte(address: usize, byte: u8, w: u16) -> u16
    ensures { result ≡ with_byte address byte w }
{
    if address % 2 == 0 {
        byte as u16 * 256 + w % 256
    } else {
        w / 256 * 256 + byte as u16
    }
}
