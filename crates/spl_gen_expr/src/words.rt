//! The words of values, parameters and results, and small constants.
ghost use Rattle.std.specs.Prelude.{◌≡◌, map, option_map};
ghost use Rattle.spl_tree.specs.Views as view;
ghost use Rattle.spl_sorts.specs.spl_meaning.Kinds as kinds;
ghost use Rattle.spl_sorts.specs.spl_meaning.Pending as pending;
ghost use Rattle.spl_sorts.specs.spl_meaning.Values as values;
ghost use Rattle.spl_sorts.specs.Profiles.{formal_of, profile_of};
ghost use Rattle.spl_sorts.specs.Sorts.{operand_of};
ghost use Rattle.spl_sorts.specs.Tables.{names_of};

use spl_sorts::{Formal, Names, Operand, Profile, constant_value};
use spl_tree::{Const, Expr, Kind, binary};

/// The words of a value of a kind.
fn width(kind: Kind) -> u64
    ensures { result ≡ kinds.width kind }
{
    match kind {
        Kind::Double => 2,
        Kind::Integer | Kind::Logical | Kind::Byte => 1,
    }
}

/// The words of an operand.
pub fn operand_width(value: Operand) -> u64
    ensures { result ≡ kinds.operand_width (operand_of value) }
{
    match value {
        Operand::Of(kind) => width(kind),
        Operand::Constant | Operand::Unknown => 1,
    }
}

/// The words of a parameter: those of its kind by value, and one by reference.
pub fn formal_words(formal: &Formal) -> u64
    ensures { result ≡ pending.formal_words (formal_of formal.now) }
{
    match formal.kind {
        None => 1,
        Some(kind) => { if formal.by_value() { width(kind) } else { 1 } }
    }
}

/// The words of a result, where there is one.
pub fn result_words(profile: &Profile) -> u64
    ensures { result ≡ pending.result_words (profile_of profile.now) }
{
    match profile.result {
        None => 0,
        Some(kind) => width(kind),
    }
}

/// A constant as a count, a first bit or a number of bits.
pub fn small_constant(names: &Names<'_>, constant: &Const) -> u64
    ensures { result ≡ values.small_constant (names_of names.now) (view.constant constant.now) }
{
    match constant_value(names, constant) {
        Some(value) => value.unsigned_abs(),
        None => 0,
    }
}

/// The number of a relation among relations.
pub fn relation_number(op: u8) -> u8
    ensures { result ≡ kinds.relation_number op }
{
    op.saturating_sub(binary::EQUAL)
}

/// The bytes of a string; those of any other expression are none.
pub fn text_bytes(e: &Expr) -> &[u8]
    ensures { result.now ≡ values.text_bytes (view.expression e.now) }
{
    match e {
        Expr::Text(chars) => &chars.bytes,
        _ => &[],
    }
}

/// The first of some parameters.
pub fn next_formal(formals: &[Formal]) -> Option<&Formal>
    ensures { option_map (λ f. formal_of f.now) result ≡ pending.first_formal (map formal_of formals.now) }
{
    match formals {
        [formal, ..] => Some(formal),
        [] => None,
    }
}

/// The parameters behind the first.
pub fn other_formals(formals: &[Formal]) -> &[Formal]
    ensures { map formal_of result.now ≡ pending.other_formals (map formal_of formals.now) }
{
    match formals {
        [_, others @ ..] => others,
        [] => formals,
    }
}
