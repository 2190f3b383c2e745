//! The first of the three levels of a body, with the results that may be assigned.
ghost use Rattle.std.specs.Prelude.{◌≡◌, OnOk, IfOk};
ghost use Rattle.spl_tree.specs.Views.{letters};
ghost use Rattle.spl_sorts.specs.spl_meaning.Names.{find};
ghost use Rattle.spl_places.specs.NameMaps.{entries_of, shown};
ghost use Rattle.spl_places.specs.Spots.{spot_of};
ghost use Rattle.spl_body_scopes.specs.Levels.{level_of};
ghost use Rattle.spl_body_scopes.specs.Results.{result_of, results_through};
ghost use Rattle.spl_statement_scopes.specs.Levels as l;
ghost use Rattle.spl_statement_scopes.specs.Levels.{behind};
ghost use Rattle.spl_module_code.specs.Bodies.{is_called, seen_results};
ghost use Rattle.spl_sorts.specs.Tables.{names_of};

use spl_body_scopes::{BodyResult, Level, Results};
use spl_places::{NameMap, Place};
use spl_sorts::{Names, Sort, Table};
use spl_tree::Name;
use std::alloc::{AllocError, Global};

/// A level without names: the first of a procedure and of a main body.
#[tactic(auto, unfolding(spl_spots::specs::NameMaps::shown))]
pub fn no_names(alloc: Global) -> Level
    ensures { level_of result ≡ l.no_names }
{
    Level {
        names: Table::new(alloc),
        places: NameMap::new(alloc),
    }
}

/// Whether a name stands for a procedure or a subroutine.
fn is_called(names: &Names<'_>, name: &Name) -> bool
    ensures { result ≡ is_called (names_of names.now (letters name.now)) }
{
    match names.find(name) {
        Some(Sort::Procedure(_) | Sort::Subroutine(_)) => true,
        _ => false,
    }
}

/// Takes in the place of a result, where its name stands for what gives it.
fn add_result(
    places: &mut NameMap<Place>,
    names: &Names<'_>,
    known: &Option<BodyResult>,
) -> Result<(), AllocError>
    ensures { OnOk result (shown spot_of (find (entries_of places.new)) ≡ behind (shown spot_of (find (entries_of places.old))) (seen_results (names_of names.now) (result_of known.now))) }
{
    if let Some(one) = known {
        if is_called(names, &one.name) {
            places.add(&one.name, one.place)?;
        }
    }
    Ok(())
}

/// The first of three levels, with the results behind its places, of the names that stand for what gives them.
pub fn with_results(
    inner: Level,
    own: &Level,
    outer: &Level,
    results: Results<'_>,
) -> Result<Level, AllocError>
    ensures { IfOk result (λ level. level_of level ≡ l.with_results (level_of inner) (level_of own.now) (level_of outer.now) (results_through (result_of results.entry.inner.now) (result_of results.entry.own.now))) }
{
    let Level { names, mut places } = inner;
    let seen = Names {
        inner: &names,
        own: &own.names,
        outer: &outer.names,
    };
    add_result(&mut places, &seen, results.inner)?;
    add_result(&mut places, &seen, results.own)?;
    Ok(Level { names, places })
}
