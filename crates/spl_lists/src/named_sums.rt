//! EQUATE: names for sums of constants.
ghost use Rattle.std.specs.Prelude.{◌≡◌, ◌+ℤ◌, ◌≤ℤ◌, neg_ℤ, pos, ◌^◌, ◌-◌, OnOk, map};
ghost use Rattle.spl_tree.specs.Spells.{term};
ghost use Rattle.spl_sorts.specs.spl_meaning.Names as n;
ghost use Rattle.spl_sorts.specs.spl_meaning.Names.{find};
ghost use Rattle.spl_sorts.specs.spl_meaning.ExpressionRules.{in_range};
ghost use Rattle.spl_uses.specs.spl_found.OwnNames.{over, behind_equates};
ghost use Rattle.spl_uses.specs.spl_found.FoundDeclarations as found;
ghost use Rattle.spl_sorts.specs.Tables.{table_of, names_of};
ghost use Rattle.spl_lists.specs.Arounds.{around_of};
ghost use Rattle.spl_lists.specs.Sums.{equal_tree};

use crate::own::{Around, again, declare, seen};
use spl_sorts::{Names, Report, Sort, Table, constant_value};
use spl_tree::{At, Const, Name};
use spl_uses::constant;
use std::alloc::AllocError;

/// The greatest value that a name of a sum is kept with.
const MOST_KEPT: i128 = 1_099_511_627_776;

/// A sum and one part more.
fn with_part(sum: i128, minus: bool, part: i64) -> i128
    requires low { neg_ℤ (pos (2 ^ 127 - 2 ^ 64)) ≤ℤ sum }
    requires high { sum ≤ℤ pos (2 ^ 127 - 2 ^ 64) }
    ensures { result ≡ sum +ℤ n.signed_term minus part }
{
    if minus {
        sum - i128::from(part)
    } else {
        sum + i128::from(part)
    }
}

/// Whether a sum is a word, signed or not, where it has a value.
fn is_word(sum: Option<i128>) -> bool
    ensures { result ≡ in_range (neg_ℤ (pos 32768)) (pos 65535) sum }
{
    match sum {
        Some(sum) => -32768 <= sum && sum <= 65535,
        None => true,
    }
}

/// The value that a name is kept with.
fn cut(sum: i128) -> i64
    ensures { result ≡ n.cut sum }
{
    if MOST_KEPT <= sum {
        MOST_KEPT as i64
    } else if sum <= -MOST_KEPT {
        -MOST_KEPT as i64
    } else {
        sum as i64
    }
}

/// The same, where there is one.
fn kept(sum: Option<i128>) -> Option<i64>
    ensures { result ≡ n.kept_value sum }
{
    match sum {
        Some(sum) => Some(cut(sum)),
        None => None,
    }
}

/// The value of a sum, where each part has one.
#[tactic(auto, using(crate::proofs::EquateWalks::sum_steps))]
fn sum(names: &Names<'_>, terms: &[(bool, Const)]) -> Option<i128>
    ensures { result ≡ n.sum_value (names_of names.now) (map term terms.now) }
{
    let mut sum = 0;
    for (minus, part) in terms {
        let part = constant_value(names, part)?;
        sum = with_part(sum, *minus, part);
    }
    Some(sum)
}

/// The constants of a sum.
#[tactic(auto, using(crate::proofs::EquateWalks::term_steps))]
fn parts(names: &Names<'_>, at: At, terms: &[(bool, Const)], report: &mut Report)
    ensures { report.new ≡ found.found_terms (names_of names.now) at (map term terms.now) report.old }
{
    for (_, part) in terms {
        constant(names, at, part, report);
    }
}

/// The sum of an item, in a list.
fn sum_here(around: &Around<'_>, here: &Table, terms: &[(bool, Const)]) -> Option<i128>
    ensures { result ≡ n.sum_value (over (find (table_of here.now)) (around_of around.now).names) (map term terms.now) }
{
    sum(&seen(here, around.names), terms)
}

/// The constants of an item's sum, in a list.
fn parts_here(
    around: &Around<'_>,
    here: &Table,
    at: At,
    terms: &[(bool, Const)],
    report: &mut Report,
)
    ensures { report.new ≡ found.found_terms (over (find (table_of here.now)) (around_of around.now).names) at (map term terms.now) report.old }
{
    parts(&seen(here, around.names), at, terms, report);
}

/// An item, behind those before it, with its sum. 2: its name is declared twice. 14: its value is no word.
fn equate(
    around: &Around<'_>,
    here: &Table,
    item: &(Name, At, Vec<(bool, Const)>),
    value: Option<i128>,
    report: &mut Report,
)
    requires { value ≡ n.sum_value (over (find (table_of here.now)) (around_of around.now).names) (map term item.now.2.items) }
    ensures { report.new ≡ found.found_equate (around_of around.now) (find (table_of here.now)) (equal_tree item.now) report.old }
{
    let (name, at, terms) = item;
    again(here, name, *at, report);
    parts_here(around, here, *at, terms, report);
    report.unless(is_word(value), 14, *at);
}

/// Declares the items of an EQUATE.
///
/// 1, 3, 14: a constant. 2: a name is declared twice. 14: a value is outside -32,768 to 65,535.
#[tactic(auto, using(crate::proofs::EquateWalks::equate_steps))]
pub fn equates(
    around: &Around<'_>,
    here: &mut Table,
    items: &[(Name, At, Vec<(bool, Const)>)],
    report: &mut Report,
) -> Result<(), AllocError>
    ensures first { OnOk result (report.new ≡ found.found_equates (around_of around.now) (find (table_of here.old)) (map equal_tree items.now) report.old) }
    ensures names { OnOk result (find (table_of here.new) ≡ behind_equates (around_of around.now).names (find (table_of here.old)) (map equal_tree items.now)) }
{
    for item in items {
        let value = sum_here(around, here, &item.2);
        equate(around, here, item, value, report);
        declare(here, &item.0, Sort::Equate(kept(value)))?;
    }
    Ok(())
}
