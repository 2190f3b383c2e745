//! The names of programs.
ghost use Rattle.std.specs.Prelude.{◌≡◌};
ghost use Rattle.std.specs.List.{list_all};
ghost use Rattle.job_lines.specs.Names.{is_capital, is_name_byte, is_program_name};

use crate::numbers::digit;

fn capital(b: u8) -> bool
    ensures { result ≡ is_capital b }
{
    b'A' <= b && b <= b'Z'
}

fn name_byte(b: u8) -> bool
    ensures { result ≡ is_name_byte b }
{
    capital(b) || digit(b)
}

fn all_name_bytes(bytes: &[u8]) -> bool
    ensures { result ≡ list_all is_name_byte bytes.now }
{
    bytes.iter().all(|b| name_byte(*b))
}

/// A word in capitals is a program's name: 1 to 8 letters and digits, the first a letter.
#[tactic(auto, unfolding(crate::specs::Names::is_program_name))]
pub fn program_name(word: &[u8]) -> bool
    ensures { result ≡ is_program_name word.now }
{
    match word {
        [] => false,
        [first, rest @ ..] => capital(*first) && all_name_bytes(rest) && rest.len() <= 7,
    }
}
