//! Levels of names with their places, and scopes of three levels.
ghost use Rattle.std.specs.Prelude.{◌≡◌, ◌++◌, ◌+◌, OnOk, IfOk, map, true, false};
ghost use Rattle.spl_tree.specs.DeclarationTrees as decl;
ghost use Rattle.spl_tree.specs.Spells as view;
ghost use Rattle.spl_tree.specs.Spells.{heading_tree};
ghost use Rattle.spl_sorts.specs.spl_meaning.Names.{find, nothing_declared};
ghost use Rattle.spl_sorts.specs.spl_meaning.Places as p;
ghost use Rattle.spl_places.specs.spl_found.OwnNames.{behind_declaration};
ghost use Rattle.spl_sorts.specs.Tables.{table_of};
ghost use Rattle.spl_places.specs.ListedData.{datum_of, list_data};
ghost use Rattle.spl_places.specs.NameMaps.{entries_of};
ghost use Rattle.spl_places.specs.Counters.{total_words};
ghost use Rattle.spl_places.specs.Programs.{unit_items};
ghost use Rattle.spl_sound.specs.Spelled.{source_of};
ghost use Rattle.spl_places.specs.Gathered.{items_under};
ghost use Rattle.spl_code_scopes.specs.Scopes.{scope_of};
ghost use Rattle.spl_body_scopes.specs.Levels as l;
ghost use Rattle.spl_body_scopes.specs.Levels.{level_of, scope_through};
ghost use Rattle.spl_body_scopes.specs.Found.{calls_in, ShowsRoutine, ShowsInner, ShowsMain, ShowsMainInner};

use crate::places::{Base, item_places, parameter_places};
use spl_code_scopes::{Entries, Places, Scope};
use spl_places::spl_lists::{formals, parameters};
use spl_places::spl_spots::plus;
use spl_places::{Area, Datum, NameMap, Part, Place, declarations, declare_all, total};
use spl_sorts::{Formal, Names, Table};
use spl_tree::{Decl, Heading, SplUnit};
use std::alloc::{AllocError, Global};

/// The first local item stands so many words above the last word of a marker.
const FIRST_LOCAL: u64 = 1;

/// Names with what they stand for, and the places of those that have words.
#[derive(Debug, Drop)]
pub struct Level {
    pub names: Table,
    pub places: NameMap<Place>,
}

/// No name is declared.
fn nothing(alloc: Global) -> Table
    ensures { find (table_of result) ≡ nothing_declared }
{
    Table::new(alloc)
}

/// The items of a unit's list, in order.
fn unit_items(alloc: Global, list: &[Decl]) -> Result<Vec<Datum>, AllocError>
    ensures { IfOk result (λ items. map datum_of items.items ≡ list_data nothing_declared nothing_declared (decl.declarations (map view.declaration list.now))) }
{
    let outer = nothing(alloc);
    let mut here = nothing(alloc);
    let mut items = Vec::new(alloc);
    declarations(alloc, &outer, &mut here, list, &mut items)?;
    Ok(items)
}

/// The level of a unit before its first declaration, the first global of which has that address: it has no names yet, and
/// the places of all globals.
fn level_with(alloc: Global, primary: u64, items: &[Datum]) -> Result<Level, AllocError>
    ensures { IfOk result (λ level. level_of level ≡ l.level_with primary (map datum_of items.now)) }
{
    let mut places = NameMap::new(alloc);
    item_places(&mut places, Area::Globals, 0, primary, items)?;
    Ok(Level {
        names: nothing(alloc),
        places,
    })
}

/// Where the first global of the next unit stands. A subprogram has none.
fn behind_globals(primary: u64, subprogram: bool, items: &[Datum]) -> Result<u64, AllocError>
    ensures { IfOk result (λ next. next ≡ primary + total_words false p.item_words (l.globals_among subprogram (map datum_of items.now))) }
{
    if subprogram {
        Ok(primary)
    } else {
        let next = plus(primary, total(Part::Items, false, items)?)?;
        Ok(next)
    }
}

/// The level of a unit before its first declaration, the first global of which has that address: it has no names yet, and
/// the places of all globals. And where the first global of the next unit stands.
pub fn unit_level(alloc: Global, primary: u64, unit: &SplUnit) -> Result<(Level, u64), AllocError>
    ensures level { IfOk result (λ made. level_of made.0 ≡ l.unit_level primary (decl.declarations (source_of unit.now).tree.items)) }
    ensures next { IfOk result (λ made. made.1 ≡ primary + total_words false p.item_words (unit_items (source_of unit.now))) }
{
    let items = unit_items(alloc, &unit.items)?;
    let level = level_with(alloc, primary, &items)?;
    let next = behind_globals(primary, unit.subprogram, &items)?;
    Ok((level, next))
}

/// Declares what a declaration of a unit does.
pub fn declare(alloc: Global, level: &mut Level, item: &Decl) -> Result<(), AllocError>
    ensures { OnOk result (level_of level.new ≡ record { names = behind_declaration nothing_declared (level_of level.old).names (view.declaration item.now); places = (level_of level.old).places }) }
{
    let outer = nothing(alloc);
    declare_all(alloc, &outer, &mut level.names, item)?;
    Ok(())
}

/// The level of a procedure, and where the OWN items of the next stand. Its unit's names up to its heading are `outer`, and
/// its first OWN item has that address.
pub fn routine_level(
    alloc: Global,
    outer: &Table,
    own: u64,
    heading: &Heading,
    list: &[Decl],
) -> Result<(Level, u64), AllocError>
    ensures level { IfOk result (λ made. level_of made.0 ≡ l.routine_level (find (table_of outer.now)) own (heading_tree heading.now) (decl.declarations (map view.declaration list.now))) }
    ensures next { IfOk result (λ made. made.1 ≡ own + total_words true p.item_words (items_under (find (table_of outer.now)) (heading_tree heading.now) (decl.declarations (map view.declaration list.now)))) }
{
    let formals = formals(alloc, heading)?;
    let mut names = parameters(alloc, &formals)?;
    let mut items = Vec::new(alloc);
    declarations(alloc, outer, &mut names, list, &mut items)?;
    let mut places = parameter_places(alloc, Base::Marker, &formals)?;
    item_places(&mut places, Area::Frame, own, FIRST_LOCAL, &items)?;
    let next = plus(own, total(Part::Items, true, &items)?)?;
    Ok((Level { names, places }, next))
}

/// The level of a subroutine.
pub fn inner_level(alloc: Global, heading: &Heading) -> Result<Level, AllocError>
    ensures { IfOk result (λ level. level_of level ≡ l.inner_level (heading_tree heading.now)) }
{
    let formals = formals(alloc, heading)?;
    let names = parameters(alloc, &formals)?;
    let places = parameter_places(alloc, Base::Return, &formals)?;
    Ok(Level { names, places })
}

/// The scope of three levels, of which the first hides the second, and that the third. The levels may be the same: a
/// procedure's own is its first and its second, and the main body's is all three.
#[tactic(auto, unfolding(spl_spots::specs::NameMaps::shown))]
pub fn scope<'t>(
    inner: &'t Level,
    own: &'t Level,
    outer: &'t Level,
    entries: Entries<'t>,
) -> Scope<'t>
    ensures through { scope_of result ≡ scope_through (level_of inner.now) (level_of own.now) (level_of outer.now) (find (entries_of entries.entry.procedures.now)) (find (entries_of entries.entry.subroutines.now)) }
    ensures routine { ShowsRoutine (level_of inner.now) (level_of own.now) (level_of outer.now) (calls_in entries.entry) (scope_of result) }
    ensures inner { ShowsInner (level_of inner.now) (level_of own.now) (level_of outer.now) (calls_in entries.entry) (scope_of result) }
    ensures main { ShowsMain (level_of inner.now) (level_of own.now) (level_of outer.now) (calls_in entries.entry) (scope_of result) }
    ensures main_inner { ShowsMainInner (level_of inner.now) (level_of own.now) (level_of outer.now) (calls_in entries.entry) (scope_of result) }
{
    Scope {
        names: Names {
            inner: &inner.names,
            own: &own.names,
            outer: &outer.names,
        },
        places: Places {
            inner: &inner.places,
            own: &own.places,
            outer: &outer.places,
        },
        entries,
    }
}
