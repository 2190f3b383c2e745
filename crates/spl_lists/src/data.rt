//! Declarations of data: the rules of their items, and what the items stand for.
ghost use Rattle.std.specs.Prelude.{◌≡◌, OnOk, map, option_map, length, is_some};
ghost use Rattle.spl_tree.specs.Views as view;
ghost use Rattle.spl_tree.specs.Views.{letters};
ghost use Rattle.spl_tree.specs.Spells.{item_tree, shape_tree};
ghost use Rattle.spl_sorts.specs.spl_meaning.Names as n;
ghost use Rattle.spl_sorts.specs.spl_meaning.Names.{find};
ghost use Rattle.spl_sorts.specs.spl_meaning.Tables as t;
ghost use Rattle.spl_sorts.specs.spl_meaning.Places as places;
ghost use Rattle.spl_sorts.specs.spl_meaning.Faults.{first_fault, unless};
ghost use Rattle.spl_sorts.specs.spl_meaning.ExpressionRules as uses;
ghost use Rattle.spl_sorts.specs.spl_meaning.DeclarationRules as rules;
ghost use Rattle.spl_uses.specs.spl_found.OwnNames.{over, behind_items};
ghost use Rattle.spl_uses.specs.spl_found.FoundDeclarations as found;
ghost use Rattle.spl_sorts.specs.Sorts.{sort_of};
ghost use Rattle.spl_sorts.specs.Tables.{table_of, names_of};
ghost use Rattle.spl_lists.specs.Arounds.{around_of};

use crate::own::{Around, again, declare, seen};
use spl_sorts::{Names, Report, Sort, Table, constant_value};
use spl_tree::{At, Const, Item, Kind, Name, Shape};
use spl_uses::{constant, constant_place};
use std::alloc::AllocError;

/// The most elements of an array.
const MOST_ELEMENTS: u128 = 64_000;

/// What a declaration says of all its items: whether they are OWN, and their kind.
#[derive(Clone, Copy, Debug)]
pub struct Data {
    pub own: bool,
    pub kind: Kind,
}

/// The number of elements from low to high.
fn elements(low: i64, high: i64) -> u128
    ensures { result ≡ places.elements low high }
{
    if high < low {
        0
    } else {
        u128::from(high.abs_diff(low)) + 1
    }
}

/// Whether bounds stand in order and span no more elements than an array may have, where they have values.
fn bounds_fit(low: Option<i64>, high: Option<i64>) -> bool
    ensures { result ≡ rules.bounds_fit low high }
{
    match (low, high) {
        (Some(low), Some(high)) => low <= high && elements(low, high) <= MOST_ELEMENTS,
        _ => true,
    }
}

/// Whether a name is the base of a view that is OWN or not: an array with bounds, and not BYTE.
fn is_base(own: bool, base: Option<&Sort>) -> bool
    ensures { result ≡ rules.is_base own (option_map (λ s. sort_of s.now) base.entry) }
{
    match base {
        Some(
            Sort::Array {
                kind,
                own: base_own,
                ..
            },
        ) => !matches!(kind, Kind::Byte) && (!own || *base_own),
        _ => false,
    }
}

/// Whether a name is declared, in a list or outside.
#[tactic(auto, using(crate::proofs::OwnLemmas::there))]
fn is_declared(around: &Around<'_>, here: &Table, name: &Name) -> bool
    ensures { result ≡ is_some (over (find (table_of here.now)) (around_of around.now).names (letters name.now)) }
{
    here.has(name) || around.names.has(name)
}

/// Whether a kind is DOUBLE.
fn is_double(kind: Kind) -> bool
    ensures { result ≡ rules.is_double_kind kind }
{
    matches!(kind, Kind::Double)
}

/// The base of a view. 1: it is not declared. 16: it is no base in this list, or the view is DOUBLE.
fn base(around: &Around<'_>, here: &Table, data: Data, name: &Name, at: At, report: &mut Report)
    ensures { report.new ≡ found.found_base (around_of around.now).names (find (table_of here.now)) data.own data.kind (letters name.now) at report.old }
{
    let declared = is_declared(around, here, name);
    report.unless(declared, 1, at);
    let fits = is_base(data.own, here.find(name));
    report.unless(!declared || fits, 16, at);
    report.unless(!is_double(data.kind), 16, at);
}

/// Bounds. 15: they are reversed, or span more elements than an array may have.
fn bounds(names: &Names<'_>, low: &Const, high: &Const, at: At, report: &mut Report)
    ensures { report.new ≡ first_fault (first_fault (first_fault report.old (uses.constant_faults (names_of names.now) at (view.constant low.now))) (uses.constant_faults (names_of names.now) at (view.constant high.now))) (unless (rules.bounds_fit (n.constant_value (names_of names.now) (view.constant low.now)) (n.constant_value (names_of names.now) (view.constant high.now))) 15 at) }
{
    constant(names, at, low, report);
    constant(names, at, high, report);
    let fits = bounds_fit(constant_value(names, low), constant_value(names, high));
    report.unless(fits, 15, at);
}

/// The shape of an item. 27: an array or a view in a split procedure.
fn shape(around: &Around<'_>, here: &Table, data: Data, item: &Item, report: &mut Report)
    ensures { report.new ≡ found.found_shape (around_of around.now) (find (table_of here.now)) data.own data.kind (shape_tree item.now.shape) item.now.at report.old }
{
    match &item.shape {
        Shape::Simple | Shape::Pointer => {}
        Shape::Array { low, high } => {
            bounds(&seen(here, around.names), low, high, item.at, report);
            report.unless(!around.split, 27, item.at);
        }
        Shape::View(name) => {
            base(around, here, data, name, item.at, report);
            report.unless(!around.split, 27, item.at);
        }
    }
}

/// Whether an initial value fits a DOUBLE: a wide constant does, and nothing is said of a name that is no constant.
fn fits_double(names: &Names<'_>, value: &Const) -> bool
    ensures { result ≡ rules.fits_double (names_of names.now) (view.constant value.now) }
{
    match value {
        Const::Wide(..) => true,
        Const::Name(name, _) => !matches!(names.find(name), Some(Sort::Equate(_))),
        _ => false,
    }
}

/// An initial value. 14: a wide constant for a word. 15: a constant of one word for a DOUBLE.
fn initial(names: &Names<'_>, kind: Kind, at: At, value: &Const, report: &mut Report)
    ensures { report.new ≡ first_fault report.old (rules.initial_faults (names_of names.now) kind at (view.constant value.now)) }
{
    constant(names, at, value, report);
    match kind {
        Kind::Double => {
            let fits = fits_double(names, value);
            report.unless(fits, 15, constant_place(at, value));
        }
        Kind::Integer | Kind::Logical | Kind::Byte => {
            report.unless(!matches!(value, Const::Wide(..)), 14, at);
        }
    }
}

/// Initial values in order.
#[tactic(auto, using(crate::proofs::DataWalks::initial_steps))]
fn initials(names: &Names<'_>, kind: Kind, at: At, values: &[Const], report: &mut Report)
    ensures { report.new ≡ found.found_initials (names_of names.now) kind at (map view.constant values.now) report.old }
{
    for value in values {
        initial(names, kind, at, value, report);
    }
}

/// Whether an item has room for so many values, where its bounds have values.
fn values_fit(names: &Names<'_>, shape: &Shape, given: usize) -> bool
    ensures { result ≡ rules.values_fit (names_of names.now) (shape_tree shape.now) given }
{
    match shape {
        Shape::Array { low, high } => {
            elements_fit(
                constant_value(names, low),
                constant_value(names, high),
                given,
            )
        }
        _ => true,
    }
}

/// Whether so many values are no more than elements, where bounds have values.
fn elements_fit(low: Option<i64>, high: Option<i64>, given: usize) -> bool
    ensures { result ≡ rules.elements_fit low high given }
{
    match (low, high) {
        (Some(low), Some(high)) => given as u128 <= elements(low, high),
        _ => true,
    }
}

/// Whether an item may have so many initial values: a local array that is not OWN, and a view, may have none.
fn may_begin(around: &Around<'_>, own: bool, shape: &Shape, given: usize) -> bool
    ensures { result ≡ rules.may_begin (around_of around.now) own (shape_tree shape.now) given }
{
    match shape {
        Shape::Array { .. } => given == 0 || own || !around.in_procedure,
        Shape::View(_) => given == 0,
        Shape::Simple | Shape::Pointer => true,
    }
}

/// What is asked of an item as a whole. 15: more values than elements. 17: an initial value on a local array or on a view, or OWN
/// outside a procedure. 27: OWN in a split procedure. 28: data in a subprogram.
fn whole(around: &Around<'_>, here: &Table, own: bool, item: &Item, report: &mut Report)
    ensures { report.new ≡ found.found_given (around_of around.now) (find (table_of here.now)) own (item_tree item.now) report.old }
{
    let given = item.first.len();
    let room = values_fit(&seen(here, around.names), &item.shape, given);
    report.unless(room, 15, item.at);
    let begins = may_begin(around, own, &item.shape, given);
    report.unless(begins, 17, item.at);
    report.unless(!own || around.in_procedure, 17, item.at);
    report.unless(!own || !around.split, 27, item.at);
    report.unless(!around.subprogram, 28, item.at);
}

/// An item, behind those before it. 2: its name is declared twice.
fn item(around: &Around<'_>, here: &Table, data: Data, item: &Item, report: &mut Report)
    ensures { report.new ≡ found.found_item (around_of around.now) (find (table_of here.now)) data.own data.kind (item_tree item.now) report.old }
{
    again(here, &item.name, item.at, report);
    shape(around, here, data, item, report);
    let names = seen(here, around.names);
    initials(&names, data.kind, item.at, &item.first, report);
    whole(around, here, data.own, item, report);
}

/// A constant as a whole number, or zero where it has no value.
fn constant_or_zero(names: &Names<'_>, constant: &Const) -> i64
    ensures { result ≡ n.constant_or_zero (names_of names.now) (view.constant constant.now) }
{
    match constant_value(names, constant) {
        Some(value) => value,
        None => 0,
    }
}

/// What an item stands for.
fn shaped(names: &Names<'_>, data: Data, shape: &Shape) -> Sort
    ensures { sort_of result ≡ t.shaped (names_of names.now) data.own data.kind (shape_tree shape.now) }
{
    let Data { own, kind } = data;
    match shape {
        Shape::Simple => Sort::Simple(kind, own),
        Shape::Array { low, high } => Sort::Array {
            kind,
            own,
            low: constant_or_zero(names, low),
            high: constant_or_zero(names, high),
        },
        Shape::View(base) => Sort::View(kind, own, base.copy()),
        Shape::Pointer => Sort::Pointer(kind, own),
    }
}

/// The same, in a list.
fn shaped_here(around: &Around<'_>, here: &Table, data: Data, shape: &Shape) -> Sort
    ensures { sort_of result ≡ t.shaped (over (find (table_of here.now)) (around_of around.now).names) data.own data.kind (shape_tree shape.now) }
{
    shaped(&seen(here, around.names), data, shape)
}

/// Declares the items of a declaration of data.
///
/// 1, 3, 14: a constant or the base of a view. 2: a name is declared twice. 15: bounds, or too many values. 16: the base of a view.
/// 17: an initial value on a local array or on a view, or OWN outside a procedure. 27: in a split procedure. 28: in a subprogram.
#[tactic(auto, using(crate::proofs::DataWalks::item_steps))]
pub fn items(
    around: &Around<'_>,
    here: &mut Table,
    data: Data,
    items: &[Item],
    report: &mut Report,
) -> Result<(), AllocError>
    ensures first { OnOk result (report.new ≡ found.found_items (around_of around.now) (find (table_of here.old)) data.own data.kind (map item_tree items.now) report.old) }
    ensures names { OnOk result (find (table_of here.new) ≡ behind_items (around_of around.now).names data.own data.kind (find (table_of here.old)) (map item_tree items.now)) }
{
    for i in items {
        item(around, here, data, i, report);
        let sort = shaped_here(around, here, data, &i.shape);
        declare(here, &i.name, sort)?;
    }
    Ok(())
}
