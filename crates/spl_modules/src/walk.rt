//! The entries of a unit, along its declarations.
ghost use Rattle.std.specs.Prelude.{◌≡◌, ◌++◌, ◌∷◌, [], OnOk, IfOk, map, option_map, length, true};
ghost use Rattle.spl_tree.specs.DeclarationTrees as decl;
ghost use Rattle.spl_tree.specs.Spells as view;
ghost use Rattle.spl_tree.specs.Spells.{heading_tree};
ghost use Rattle.spl_sound.specs.spl_meaning.Names.{find};
ghost use Rattle.spl_sound.specs.Spelled.{source_of};
ghost use Rattle.spl_places.specs.NameMaps.{entries_of};
ghost use Rattle.spl_scopes.specs.Entries.{main, inner_entry, inner_entries};
ghost use Rattle.spl_modules.specs.Entered.{entered_of, behind_entries, and_inner, inner_indexes, with_entry, with_declared};
ghost use Rattle.spl_modules.specs.UnitModules.{IsUnitModules};
ghost use Rattle.spl_modules.specs.Walks.{walk_of, indexes_in};
ghost use Rattle.spl_modules.specs.Made.{made_of};
ghost use Rattle.std.specs.List.{slice_get};

use crate::modules::{ModuleEntries, enter};
use spl_branch::Entry;
use spl_places::NameMap;
use spl_tree::{Decl, Heading, SplUnit};
use std::alloc::{AllocError, Global};

/// The entries of a unit: those of each segment, and the indexes of subroutines by name.
#[derive(Debug, Drop)]
pub struct UnitEntries {
    /// By the number of the segment.
    pub modules: Vec<ModuleEntries>,
    /// The indexes of the main body's subroutines.
    pub main: NameMap<usize>,
    /// Those of each procedure's subroutines, by its number among the unit's procedures with bodies.
    pub routines: Vec<NameMap<usize>>,
}

impl UnitEntries {
    /// The entries of the module that the unit has in a segment.
    pub fn entries(&self, segment: u16) -> &[Entry]
        ensures { map made_of result.now ≡ (walk_of self.now).entered.made segment }
    {
        let number = usize::from(segment);
        if number < self.modules.len() {
            &self.modules[number].entries
        } else {
            &[]
        }
    }

    /// The indexes of the procedures of that module, where it has entries.
    pub fn procedures(&self, segment: u16) -> Option<&NameMap<usize>>
        ensures { indexes_in (option_map (λ m. m.now) result) ≡ (walk_of self.now).entered.procedures segment }
    {
        let number = usize::from(segment);
        if number < self.modules.len() {
            Some(&self.modules[number].procedures)
        } else {
            None
        }
    }

    /// The indexes of a procedure's subroutines.
    pub fn inner(&self, routine: usize) -> Option<&NameMap<usize>>
        ensures { option_map (λ m. find (entries_of m.now)) result ≡ slice_get (walk_of self.now).routines routine }
    {
        self.routines.get(routine)
    }
}

/// Takes in a declaration of a body, where it is a subroutine.
fn inner(
    alloc: Global,
    modules: &mut Vec<ModuleEntries>,
    segment: u16,
    item: &Decl,
    own: &mut NameMap<usize>,
) -> Result<(), AllocError>
    ensures entered { OnOk result (entered_of modules.new.items ≡ behind_entries (entered_of modules.old.items) (inner_entry segment main (view.declaration item.now))) }
    ensures names { OnOk result (find (entries_of own.new) ≡ and_inner (find (entries_of own.old)) (length ((entered_of modules.old.items).made segment)) (view.declaration item.now)) }
{
    match item {
        Decl::Subroutine(heading, _) => {
            let index = enter(alloc, modules, segment, &heading.name, false)?;
            own.add(&heading.name, index)?;
            Ok(())
        }
        Decl::Data { .. }
        | Decl::Equate(_)
        | Decl::Intrinsic(_)
        | Decl::Label(_)
        | Decl::Forward(_)
        | Decl::External(_)
        | Decl::Procedure(..) => Ok(()),
    }
}

/// Takes in the subroutines of a procedure's list, and answers their indexes.
#[tactic(auto, using(crate::proofs::WalkSteps::inner_steps))]
fn subroutines(
    alloc: Global,
    modules: &mut Vec<ModuleEntries>,
    segment: u16,
    list: &[Decl],
) -> Result<NameMap<usize>, AllocError>
    ensures entered { OnOk result (entered_of modules.new.items ≡ behind_entries (entered_of modules.old.items) (inner_entries segment main (decl.declarations (map view.declaration list.now)))) }
    ensures names { IfOk result (λ own. find (entries_of own) ≡ find (inner_indexes (length ((entered_of modules.old.items).made segment)) (decl.declarations (map view.declaration list.now)))) }
{
    let mut own = NameMap::new(alloc);
    for d in list {
        inner(alloc, modules, segment, d, &mut own)?;
    }
    Ok(own)
}

/// Takes in a procedure and its subroutines, and answers the indexes of these.
fn procedure(
    alloc: Global,
    modules: &mut Vec<ModuleEntries>,
    heading: &Heading,
    list: &[Decl],
) -> Result<NameMap<usize>, AllocError>
    ensures entered { OnOk result (entered_of modules.new.items ≡ behind_entries (with_entry (entered_of modules.old.items) (heading_tree heading.now).name (heading_tree heading.now).segment true) (inner_entries (heading_tree heading.now).segment main (decl.declarations (map view.declaration list.now)))) }
    ensures names { IfOk result (λ own. find (entries_of own) ≡ find (inner_indexes (length ((with_entry (entered_of modules.old.items) (heading_tree heading.now).name (heading_tree heading.now).segment true).made (heading_tree heading.now).segment)) (decl.declarations (map view.declaration list.now)))) }
{
    enter(alloc, modules, heading.segment, &heading.name, true)?;
    let own = subroutines(alloc, modules, heading.segment, list)?;
    Ok(own)
}

/// Takes in a declaration of a unit, the main body of which stands in a segment.
fn declared(
    alloc: Global,
    segment: u16,
    item: &Decl,
    all: &mut UnitEntries,
) -> Result<(), AllocError>
    ensures { OnOk result (walk_of all.new ≡ with_declared segment (walk_of all.old) (view.declaration item.now)) }
{
    match item {
        Decl::Procedure(heading, body) => {
            let own = procedure(alloc, &mut all.modules, heading, &body.items)?;
            all.routines.push(own)?;
            Ok(())
        }
        Decl::Subroutine(..) => {
            inner(alloc, &mut all.modules, segment, item, &mut all.main)?;
            Ok(())
        }
        Decl::Data { .. }
        | Decl::Equate(_)
        | Decl::Intrinsic(_)
        | Decl::Label(_)
        | Decl::Forward(_)
        | Decl::External(_) => Ok(()),
    }
}

/// The entries of a unit: those of each segment in order of text, procedures and subroutines, each with the mark of its
/// number; and the indexes of procedures, and of the subroutines of each body, by name.
#[tactic(auto, using(crate::proofs::WalkSteps::unit_steps))]
pub fn unit_entries(alloc: Global, unit: &SplUnit) -> Result<UnitEntries, AllocError>
    ensures { IfOk result (λ all. IsUnitModules (source_of unit.now) (walk_of all)) }
{
    let mut all = UnitEntries {
        modules: Vec::new(alloc),
        main: NameMap::new(alloc),
        routines: Vec::new(alloc),
    };
    for d in &unit.items {
        declared(alloc, unit.segment, d, &mut all)?;
    }
    Ok(all)
}
