//! Numbers as digits.
ghost use Rattle.std.specs.Prelude.{◌≡◌, ◌+◌, ◌≤◌, ◌<◌, ◌++◌, length};
ghost use Rattle.std.specs.Fmt.{decimal};
ghost use Rattle.arrayvec.specs.ArrayVec.{array_vec_len};

use arrayvec::ArrayVec;

/// The digits of a number of 64 bits.
pub(crate) type Digits = ArrayVec<u8, 20>;

/// Appends the number in decimal.
#[tactic(auto, using(crate::proofs::NumberLemmas::digit_steps))]
fn push_decimal(text: &mut Digits, n: u64)
    requires room { array_vec_len text.old + length (decimal n) ≤ 20 }
    ensures items { text.new.items ≡ text.old.items ++ decimal n }
{
    if n < 10 {
        text.push(b'0' + n as u8);
    } else {
        push_decimal(text, n / 10);
        text.push(b'0' + (n % 10) as u8);
    }
}

/// The number in decimal.
#[tactic(auto, using(crate::proofs::NumberLemmas::digit_counts))]
pub(crate) fn number(n: u64) -> Digits
    ensures { result.items ≡ decimal n }
{
    let mut text = ArrayVec::new();
    push_decimal(&mut text, n);
    text
}
