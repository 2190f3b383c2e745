//! What is stored of one list of declarations.
ghost use Rattle.std.specs.Prelude.{◌≡◌, OnOk, map};
ghost use Rattle.spl_tree.specs.DeclarationTrees as decl;
ghost use Rattle.spl_tree.specs.Spells as view;
ghost use Rattle.spl_sorts.specs.spl_meaning.Names.{find};
ghost use Rattle.spl_sorts.specs.Tables.{table_of};
ghost use Rattle.spl_initials.specs.spl_places.ListedData.{datum_of};
ghost use Rattle.spl_initials.specs.Memory.{memory_of};
ghost use Rattle.spl_globals.specs.Stored.{list_stored};

use spl_initials::spl_places::{Area, Datum, Starts};
use spl_initials::{list_cells, list_initials};
use spl_sorts::Table;
use spl_tree::Decl;
use std::alloc::{AllocError, Global};

/// What is stored in a walk along a program: all cells, or all initial values, which stand behind the cells.
#[derive(Clone, Copy, Debug, PartialEq, Eq)]
pub enum Pass {
    Cells,
    Initials,
}

/// A list of declarations with its items: whether those that are OWN are meant, where it starts, and the names outside
/// it and before it.
#[derive(Drop)]
pub struct Listing<'t> {
    pub own: bool,
    pub area: Area,
    pub at: Starts,
    pub outer: &'t Table,
    pub items: &'t [Datum],
    pub list: &'t [Decl],
}

/// Stores what a pass does of a list. An error is want of memory, or a sum beyond `u64`.
pub fn list_stored(
    alloc: Global,
    pass: Pass,
    words: &mut [u16],
    of: &Listing<'_>,
    here: &mut Table,
) -> Result<(), AllocError>
    ensures { OnOk result (memory_of words.new ≡ list_stored pass of.now.own of.now.area of.now.at (find (table_of of.now.outer.now)) (find (table_of here.old)) (map datum_of of.now.items.now) (decl.declarations (map view.declaration of.now.list.now)) (memory_of words.old)) }
{
    match pass {
        Pass::Cells => {
            list_cells(alloc, words, of.own, of.area, of.at, of.items)?;
        }
        Pass::Initials => {
            list_initials(
                alloc, words, of.own, of.area, of.at, of.items, of.outer, here, of.list,
            )?;
        }
    }
    Ok(())
}
