//! Constants as whole numbers.
ghost use Rattle.std.specs.Prelude.{◌≡◌, option_map};
ghost use Rattle.spl_tree.specs.Views as view;
ghost use Rattle.spl_meaning.specs.Names as n;
ghost use Rattle.spl_meaning.specs.ExpressionRules as rules;
ghost use Rattle.spl_sorts.specs.Tables.{names_of};

use crate::sorts::Sort;
use crate::tables::Names;
use spl_tree::Const;

/// A string as a word: the code of its one character, or of its first times 256 and that of its second.
pub fn text_value(bytes: &[u8]) -> Option<u16>
    ensures { result ≡ n.text_value bytes.now }
{
    match bytes {
        [a] => Some(u16::from(*a)),
        [a, b] => Some(256 * u16::from(*a) + u16::from(*b)),
        _ => None,
    }
}

/// The whole number that a constant is, where it is one.
pub fn constant_value(names: &Names<'_>, constant: &Const) -> Option<i64>
    ensures { result ≡ n.constant_value (names_of names.now) (view.constant constant.now) }
{
    match constant {
        Const::Number(minus, value) => Some(if *minus {
            -i64::from(*value)
        } else {
            i64::from(*value)
        }),
        Const::Wide(minus, value) => Some(if *minus {
            -i64::from(*value)
        } else {
            i64::from(*value)
        }),
        Const::Text(chars) => match text_value(&chars.bytes) {
            Some(value) => Some(i64::from(value)),
            None => None,
        },
        Const::Truth(true) => Some(65535),
        Const::Truth(false) => Some(0),
        Const::Name(name, _) => match names.find(name) {
            Some(Sort::Equate(value)) => *value,
            _ => None,
        },
    }
}

/// Whether a constant is in a range, where it has a value.
pub fn in_range(low: i64, high: i64, value: Option<i64>) -> bool
    ensures { result ≡ rules.in_range low high value }
{
    match value {
        Some(value) => low <= value && value <= high,
        None => true,
    }
}

/// Whether these are the first bit and the length of a bit field: at least one bit, within the word. Where one of them has no value, the
/// other is looked at by itself.
#[tactic(auto, unfolding(spl_meaning::specs::ExpressionRules::is_field))]
pub fn is_field(start: Option<i64>, length: Option<i64>) -> bool
    ensures { result ≡ rules.is_field start length }
{
    match (start, length) {
        (Some(start), Some(length)) => 0 <= start && 1 <= length && length <= 16 - start,
        (Some(start), None) => 0 <= start && start <= 15,
        (None, Some(length)) => 1 <= length && length <= 16,
        (None, None) => true,
    }
}
