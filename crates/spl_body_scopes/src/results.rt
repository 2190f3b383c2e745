//! The results that may be assigned in bodies.
ghost use Rattle.std.specs.Prelude.{◌≡◌, IfOk, option_map};
ghost use Rattle.spl_tree.specs.Views.{letters};
ghost use Rattle.spl_tree.specs.Spells.{heading_tree};
ghost use Rattle.spl_sorts.specs.spl_meaning.Names.{find};
ghost use Rattle.spl_body_scopes.specs.declared.places.Base.TheVariants as base;
ghost use Rattle.spl_sorts.specs.spl_meaning.Kinds as kinds;
ghost use Rattle.spl_sorts.specs.Tables.{table_of};
ghost use Rattle.spl_body_scopes.specs.Results as r;
ghost use Rattle.spl_body_scopes.specs.Results.{result_of, placed_result};

use crate::places::Base;
use spl_formals::formals_words;
use spl_places::Place;
use spl_places::spl_lists::formals;
use spl_places::spl_spots::plus;
use spl_sorts::Table;
use spl_tree::{Heading, Kind, Name};
use std::alloc::{AllocError, Global};

/// The result of a procedure or a subroutine, under its name.
#[derive(Debug, Drop)]
pub struct BodyResult {
    pub name: Name,
    pub kind: Kind,
    pub place: Place,
}

/// The words of a value of a kind.
fn width(kind: Kind) -> u64
    ensures { result ≡ kinds.width kind }
{
    match kind {
        Kind::Double => 2,
        Kind::Integer | Kind::Logical | Kind::Byte => 1,
    }
}

/// The result of a heading, where it has one: it stands below the parameters. An error is want of memory, or as in `plus`.
fn result_below(
    alloc: Global,
    base: Base,
    heading: &Heading,
) -> Result<Option<BodyResult>, AllocError>
    ensures { IfOk result (λ found. result_of found ≡ r.heading_result base (heading_tree heading.now)) }
{
    match heading.result {
        None => Ok(None),
        Some(kind) => {
            let formals = formals(alloc, heading)?;
            let from_gap = plus(base.gap(), formals_words(&formals)?)?;
            let words = plus(from_gap, width(kind))?;
            Ok(Some(BodyResult {
                name: heading.name.copy(),
                kind,
                place: base.below(words),
            }))
        }
    }
}

/// The result of a procedure with this list, which may hide it.
pub fn routine_result(
    alloc: Global,
    own: &Table,
    heading: &Heading,
) -> Result<Option<BodyResult>, AllocError>
    ensures { IfOk result (λ found. result_of found ≡ r.routine_result (find (table_of own.now)) (heading_tree heading.now)) }
{
    if own.has(&heading.name) {
        return Ok(None);
    }
    result_below(alloc, Base::Marker, heading)
}

/// The result of a subroutine.
pub fn inner_result(alloc: Global, heading: &Heading) -> Result<Option<BodyResult>, AllocError>
    ensures { IfOk result (λ found. result_of found ≡ r.heading_result base.Return (heading_tree heading.now)) }
{
    result_below(alloc, Base::Return, heading)
}

/// What a name is as a result of a body.
fn found(known: &Option<BodyResult>, name: &Name) -> Option<(Kind, Place)>
    ensures { option_map placed_result result ≡ result_of known.now (letters name.now) }
{
    match known {
        None => None,
        Some(one) => {
            if name.text.as_slice() == one.name.text.as_slice() {
                Some((one.kind, one.place))
            } else {
                None
            }
        }
    }
}

/// The results that may be assigned in a body: in a subroutine its own, and that of the procedure around it.
#[derive(Clone, Copy, Debug)]
pub struct Results<'t> {
    pub inner: &'t Option<BodyResult>,
    pub own: &'t Option<BodyResult>,
}

impl Results<'_> {
    /// The kind and the place of a result by its name.
    pub fn find(&self, name: &Name) -> Option<(Kind, Place)>
        ensures { option_map placed_result result ≡ r.results_through (result_of self.now.inner.now) (result_of self.now.own.now) (letters name.now) }
    {
        match found(self.inner, name) {
            Some(one) => Some(one),
            None => found(self.own, name),
        }
    }
}
