//! The rooms of procedures and subroutines.
ghost use Rattle.std.specs.Prelude.{◌≡◌, ◌++◌, ◌∷◌, [], OnOk, IfOk, map};
ghost use Rattle.spl_tree.specs.DeclarationTrees as decl;
ghost use Rattle.spl_tree.specs.Spells as view;
ghost use Rattle.spl_tree.specs.Spells.{heading_tree};
ghost use Rattle.spl_tree.specs.StatementTrees.{statements};
ghost use Rattle.spl_tree.specs.Views as trees;
ghost use Rattle.spl_sound.specs.spl_meaning.Names as n;
ghost use Rattle.spl_sound.specs.spl_meaning.Names.{find};
ghost use Rattle.spl_sorts.specs.Tables.{table_of};
ghost use Rattle.spl_places.specs.spl_found.OwnNames.{over, behind_declarations};
ghost use Rattle.spl_places.specs.ListedData.{datum_of, list_data};
ghost use Rattle.spl_rooms.specs.Walked as walked;

use crate::room_type::Room;
use spl_depths::{depth, subroutine_depth};
use spl_formals::result_word;
use spl_places::spl_lists::{formals, parameters, profile};
use spl_places::spl_spots::plus;
use spl_places::{Datum, Part, declarations, total};
use spl_sorts::{Names, Table};
use spl_tree::{Decl, Heading, Stmt};
use std::alloc::{AllocError, Global};

/// The gap between the last word of a marker and the parameters below it.
const MARKER_GAP: u64 = 3;

/// The room of a subroutine, in a list with the names outside it.
fn subroutine_room(
    alloc: Global,
    own: &Table,
    outer: &Table,
    heading: &Heading,
    statement: &Stmt,
) -> Result<Room, AllocError>
    ensures { IfOk result (λ room. room ≡ walked.subroutine_room (over (find (table_of own.now)) (find (table_of outer.now))) (heading_tree heading.now) (trees.statement statement.now)) }
{
    let profile = profile(alloc, heading)?;
    let parameters = parameters(alloc, &profile.formals)?;
    let names = Names {
        inner: &parameters,
        own,
        outer,
    };
    Ok(Room {
        at: heading.at,
        locals: 0,
        depth: subroutine_depth(&names, statement)?,
        result: result_word(0, &profile)?,
    })
}

/// The room of a declaration, where it is a subroutine.
fn inner(
    alloc: Global,
    own: &Table,
    outer: &Table,
    item: &Decl,
    all: &mut Vec<Room>,
) -> Result<(), AllocError>
    ensures { OnOk result (all.new.items ≡ all.old.items ++ walked.inner_rooms (over (find (table_of own.now)) (find (table_of outer.now))) (view.declaration item.now)) }
{
    match item {
        Decl::Subroutine(heading, statement) => {
            all.push(subroutine_room(alloc, own, outer, heading, statement)?)?;
        }
        Decl::Data { .. }
        | Decl::Equate(_)
        | Decl::Intrinsic(_)
        | Decl::Label(_)
        | Decl::Forward(_)
        | Decl::External(_)
        | Decl::Procedure(..) => {}
    }
    Ok(())
}

/// The rooms of the subroutines of a list, which may use all of its names and those outside it.
#[tactic(auto, using(crate::proofs::RoomWalks::inner_steps))]
pub fn subroutines(
    alloc: Global,
    own: &Table,
    outer: &Table,
    list: &[Decl],
    all: &mut Vec<Room>,
) -> Result<(), AllocError>
    ensures { OnOk result (all.new.items ≡ all.old.items ++ walked.subroutines_rooms (over (find (table_of own.now)) (find (table_of outer.now))) (decl.declarations (map view.declaration list.now))) }
{
    for d in list {
        inner(alloc, own, outer, d, all)?;
    }
    Ok(())
}

/// The items of a procedure's list, behind its parameters, and its names.
fn own_list(
    alloc: Global,
    globals: &Table,
    heading: &Heading,
    list: &[Decl],
    all: &mut Vec<Datum>,
) -> Result<Table, AllocError>
    ensures items { OnOk result (map datum_of all.new.items ≡ map datum_of all.old.items ++ list_data (find (table_of globals.now)) (find (n.parameters (n.formals_of (heading_tree heading.now)))) (decl.declarations (map view.declaration list.now))) }
    ensures names { IfOk result (λ own. find (table_of own) ≡ behind_declarations (find (table_of globals.now)) (find (n.parameters (n.formals_of (heading_tree heading.now)))) (decl.declarations (map view.declaration list.now))) }
{
    let formals = formals(alloc, heading)?;
    let mut own = parameters(alloc, &formals)?;
    declarations(alloc, globals, &mut own, list, all)?;
    Ok(own)
}

/// The local words of these items. An error is as in `plus`.
fn local_words(items: &[Datum]) -> Result<u64, AllocError>
    ensures { IfOk result (λ words. words ≡ walked.local_words (map datum_of items.now)) }
{
    plus(
        total(Part::Items, false, items)?,
        total(Part::Arrays, false, items)?,
    )
}

/// The depth of a body with this list, and the names outside it.
pub fn body_depth(own: &Table, outer: &Table, list: &[Stmt]) -> Result<u64, AllocError>
    ensures { IfOk result (λ words. words ≡ walked.body_depth (over (find (table_of own.now)) (find (table_of outer.now))) (map trees.statement list.now)) }
{
    let names = Names {
        inner: own,
        own,
        outer,
    };
    let words = depth(&names, list)?;
    Ok(words)
}

/// The place of a procedure's result.
fn procedure_result(alloc: Global, heading: &Heading) -> Result<Option<u16>, AllocError>
    ensures { IfOk result (λ word. word ≡ walked.procedure_result (heading_tree heading.now)) }
{
    let profile = profile(alloc, heading)?;
    result_word(MARKER_GAP, &profile)
}

/// The rooms of a procedure, where its unit's list up to it is `globals`: its own, and those of its subroutines.
pub fn procedure(
    alloc: Global,
    globals: &Table,
    heading: &Heading,
    list: &[Decl],
    body: &[Stmt],
    all: &mut Vec<Room>,
) -> Result<(), AllocError>
    ensures { OnOk result (all.new.items ≡ all.old.items ++ walked.procedure_rooms (find (table_of globals.now)) (heading_tree heading.now) (decl.declarations (map view.declaration list.now)) (map trees.statement body.now)) }
{
    let mut items = Vec::new(alloc);
    let own = own_list(alloc, globals, heading, list, &mut items)?;
    all.push(Room {
        at: heading.at,
        locals: local_words(&items)?,
        depth: body_depth(&own, globals, body)?,
        result: procedure_result(alloc, heading)?,
    })?;
    subroutines(alloc, &own, globals, list, all)
}
