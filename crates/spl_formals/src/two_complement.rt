//! Places as two's complement words.
ghost use Rattle.std.specs.Prelude.{◌≡◌, pos, neg_ℤ};
ghost use Rattle.hp_word.specs.Words.{word_of};

/// So many words above a base, or the address of a data word.
#[tactic(auto, unfolding(hp_word::specs::Words::word_of))]
pub fn above(words: u64) -> u16
    ensures { result ≡ word_of (pos words) }
{
    i128::from(words).rem_euclid(65536) as u16
}

/// So many words below a base.
#[tactic(auto, unfolding(hp_word::specs::Words::word_of))]
pub fn below(words: u64) -> u16
    ensures { result ≡ word_of (neg_ℤ (pos words)) }
{
    (-i128::from(words)).rem_euclid(65536) as u16
}
