//! The texts of numbers, as bytes of ASCII.

ghost use Rattle.std.specs.Prelude.{◌≡◌, ◌+◌, ◌≤◌, ◌<◌, [], ◌∷◌, ◌++◌, length};
ghost use Rattle.std.specs.Fmt.{decimal};
ghost use Rattle.arrayvec.specs.ArrayVec.{array_vec_len};
ghost use Rattle.hp_word.specs.Texts.{decimal_text_of, octal_text_of};

use arrayvec::ArrayVec;

/// Appends one decimal digit.
fn push_digit(text: &mut ArrayVec<u8, 11>, digit: u8)
    requires digit { digit < 10 }
    requires room { array_vec_len text.old < 11 }
    ensures items { text.new.items ≡ text.old.items ++ (48 + digit) ∷ [] }
{
    text.push(b'0' + digit);
}

/// Appends the number in decimal.
#[tactic(auto, using(crate::proofs::TextLemmas::digits_of))]
fn push_decimal(text: &mut ArrayVec<u8, 11>, n: u32)
    requires room { array_vec_len text.old + length (decimal n) ≤ 11 }
    ensures items { text.new.items ≡ text.old.items ++ decimal n }
{
    if n < 10 {
        push_digit(text, n as u8);
    } else {
        push_decimal(text, n / 10);
        push_digit(text, (n % 10) as u8);
    }
}

/// The number in decimal, with `-` before a negative one.
#[tactic(auto, using(crate::proofs::TextLemmas::digit_counts))]
pub fn decimal_text(v: i32) -> ArrayVec<u8, 11>
    ensures { result.items ≡ decimal_text_of v }
{
    let mut text = ArrayVec::new();
    if v < 0 {
        text.push(b'-');
    }
    push_decimal(&mut text, v.unsigned_abs());
    text
}

/// Appends the last `digits` octal digits of the number.
#[tactic(auto, using(crate::proofs::TextLemmas::octal_counts), unfolding(crate::specs::Texts::octal_text_of))]
fn push_octal(text: &mut ArrayVec<u8, 11>, v: u32, digits: u8)
    requires room { array_vec_len text.old + digits ≤ 11 }
    ensures items { text.new.items ≡ text.old.items ++ octal_text_of digits v }
{
    if digits > 0 {
        push_octal(text, v / 8, digits - 1);
        push_digit(text, (v % 8) as u8);
    }
}

/// The last `digits` octal digits of the number, at most eleven, leading zeros too.
pub fn octal_text(v: u32, digits: u8) -> ArrayVec<u8, 11>
    requires { digits ≤ 11 }
    ensures { result.items ≡ octal_text_of digits v }
{
    let mut text = ArrayVec::new();
    push_octal(&mut text, v, digits);
    text
}
