//! Numbers in words.
ghost use Rattle.std.specs.Prelude.{◌≡◌, ◌<◌, ◌≤◌, ◌^◌, length, IfSome};
ghost use Rattle.job_lines.specs.Numbers.{is_digit, digits_after, number_in};

/// A decimal digit.
pub(crate) fn digit(b: u8) -> bool
    ensures { result ≡ is_digit b }
{
    b'0' <= b && b <= b'9'
}

/// The number of these digits.
fn digits(word: &[u8]) -> Option<u64>
    requires { length word.now ≤ 10 }
    ensures { result ≡ digits_after 0 word.now }
{
    let mut value: u64 = 0;
    for d in word {
        if !digit(*d) {
            return None;
        }
        value = 10 * value + (*d - b'0') as u64;
    }
    Some(value)
}

/// The number that a word of 1 to 10 decimal digits is; none of any other word.
#[tactic(auto, unfolding(crate::specs::Numbers::number_in))]
pub fn number(word: &[u8]) -> Option<u64>
    ensures { result ≡ number_in word.now }
{
    if word.is_empty() || word.len() > 10 {
        return None;
    }
    digits(word)
}
