//! The cells and the initial values of one list of declarations, from where it starts.
ghost use Rattle.std.specs.Prelude.{◌≡◌, OnOk, IfOk, map};
ghost use Rattle.spl_tree.specs.DeclarationTrees as decl;
ghost use Rattle.spl_tree.specs.Spells as view;
ghost use Rattle.spl_sorts.specs.spl_meaning.Names.{find};
ghost use Rattle.spl_sorts.specs.spl_meaning.Places as places;
ghost use Rattle.spl_sorts.specs.spl_meaning.Runs as runs;
ghost use Rattle.spl_sorts.specs.Tables.{table_of};
ghost use Rattle.spl_places.specs.ListedData.{datum_of};
ghost use Rattle.spl_places.specs.spl_found.OwnNames.{behind_declarations};
ghost use Rattle.spl_places.specs.Spots.{place_in, behind_data};
ghost use Rattle.spl_initials.specs.Memory.{memory_of};
ghost use Rattle.spl_initials.specs.Cells.{cells_by, initials_by};
ghost use Rattle.spl_initials.specs.Lists.{found_of, starts_of};

use crate::cells::put_cells;
use crate::initials::put_initials;
use spl_places::{Area, Datum, Starts, list_places};
use spl_sorts::Table;
use spl_tree::Decl;
use std::alloc::{AllocError, Global};

/// Stores the cells of a list of these items that starts there, of those that are OWN or of those that are not.
/// Answers where the next list starts. An error is want of memory, or a sum beyond `u64`.
pub fn list_cells(
    alloc: Global,
    words: &mut [u16],
    own: bool,
    area: Area,
    at: Starts,
    items: &[Datum],
) -> Result<Starts, AllocError>
    ensures words { OnOk result (memory_of words.new ≡ places.put_cells runs.global_address (cells_by own (found_of (place_in area) (starts_of at) (map datum_of items.now)) (map datum_of items.now)) (memory_of words.old)) }
    ensures next { IfOk result (λ next. next ≡ behind_data at (map datum_of items.now)) }
{
    let list = list_places(alloc, area, at, items)?;
    put_cells(words, own, &list, items);
    Ok(list.next)
}

/// Stores the initial values of such a list of declarations, with the names outside it and those before it, and declares what it does.
/// Answers where the next list starts. An error is as in `list_cells`.
pub fn list_initials(
    alloc: Global,
    words: &mut [u16],
    own: bool,
    area: Area,
    at: Starts,
    items: &[Datum],
    outer: &Table,
    here: &mut Table,
    declarations: &[Decl],
) -> Result<Starts, AllocError>
    ensures words { OnOk result (memory_of words.new ≡ places.put_initials runs.global_address (initials_by own (find (table_of outer.now)) (found_of (place_in area) (starts_of at) (map datum_of items.now)) (find (table_of here.old)) (decl.declarations (map view.declaration declarations.now))) (memory_of words.old)) }
    ensures names { OnOk result (find (table_of here.new) ≡ behind_declarations (find (table_of outer.now)) (find (table_of here.old)) (decl.declarations (map view.declaration declarations.now))) }
    ensures next { IfOk result (λ next. next ≡ behind_data at (map datum_of items.now)) }
{
    let list = list_places(alloc, area, at, items)?;
    put_initials(alloc, words, own, outer, here, &list, declarations)?;
    Ok(list.next)
}
