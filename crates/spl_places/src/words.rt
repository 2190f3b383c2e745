//! The words of items and of arrays.
ghost use Rattle.std.specs.Prelude.{◌≡◌, ◌+◌, IfOk};
ghost use Rattle.spl_sorts.specs.spl_meaning.Kinds.{width};
ghost use Rattle.spl_sorts.specs.spl_meaning.Places as places;
ghost use Rattle.spl_sorts.specs.Sorts.{sort_of};

use spl_sorts::Sort;
use spl_spots::plus;
use spl_tree::Kind;
use std::alloc::AllocError;

/// Whether an item is OWN.
pub fn is_own(sort: &Sort) -> bool
    ensures { result ≡ places.is_own (sort_of sort.now) }
{
    match sort {
        Sort::Simple(_, own)
        | Sort::Array { own, .. }
        | Sort::View(_, own, _)
        | Sort::Pointer(_, own) => *own,
        Sort::Value(_)
        | Sort::ByReference(_)
        | Sort::ArrayParameter(_)
        | Sort::Equate(_)
        | Sort::Label
        | Sort::Intrinsic(_)
        | Sort::Procedure(_)
        | Sort::Subroutine(_)
        | Sort::Unknown => false,
    }
}

/// The words of a value of a kind.
fn width(kind: Kind) -> u64
    ensures { result ≡ width kind }
{
    match kind {
        Kind::Double => 2,
        Kind::Integer | Kind::Logical | Kind::Byte => 1,
    }
}

/// The words of an item: those of its kind for a variable, and one cell for an array, a view and a pointer.
pub fn item_words(sort: &Sort) -> u64
    ensures { result ≡ places.item_words (sort_of sort.now) }
{
    match sort {
        Sort::Simple(kind, _) => width(*kind),
        Sort::Array { .. } | Sort::View(..) | Sort::Pointer(..) => 1,
        Sort::Value(_)
        | Sort::ByReference(_)
        | Sort::ArrayParameter(_)
        | Sort::Equate(_)
        | Sort::Label
        | Sort::Intrinsic(_)
        | Sort::Procedure(_)
        | Sort::Subroutine(_)
        | Sort::Unknown => 0,
    }
}

/// The number of elements from low to high.
pub fn elements(low: i64, high: i64) -> u128
    ensures { result ≡ places.elements low high }
{
    if high < low {
        0
    } else {
        u128::from(high.abs_diff(low)) + 1
    }
}

/// The words of so many elements: two for a DOUBLE, one for two BYTEs, rounded up. A number beyond `u64` is an
/// error, as want of memory is: no bounds that the rules let pass have so many.
pub fn elements_words(kind: Kind, count: u128) -> Result<u64, AllocError>
    ensures { IfOk result (λ words. words ≡ places.elements_words kind count) }
{
    let Ok(count) = u64::try_from(count) else {
        return Err(AllocError);
    };
    match kind {
        Kind::Double => plus(count, count),
        Kind::Byte => Ok(count / 2 + count % 2),
        Kind::Integer | Kind::Logical => Ok(count),
    }
}

/// The words of an array's data; other items have none. An error is as in `elements_words`.
pub fn array_words(sort: &Sort) -> Result<u64, AllocError>
    ensures { IfOk result (λ words. words ≡ places.array_words (sort_of sort.now)) }
{
    match sort {
        Sort::Array {
            kind,
            low,
            high,
            ..
        } => elements_words(*kind, elements(*low, *high)),
        Sort::Simple(..)
        | Sort::View(..)
        | Sort::Pointer(..)
        | Sort::Value(_)
        | Sort::ByReference(_)
        | Sort::ArrayParameter(_)
        | Sort::Equate(_)
        | Sort::Label
        | Sort::Intrinsic(_)
        | Sort::Procedure(_)
        | Sort::Subroutine(_)
        | Sort::Unknown => Ok(0),
    }
}
