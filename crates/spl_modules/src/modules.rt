//! The modules of a unit, by the numbers of their segments.
ghost use Rattle.std.specs.Prelude.{◌≡◌, ◌<◌, [], OnOk, IfOk, map, length};
ghost use Rattle.spl_tree.specs.Views.{letters};
ghost use Rattle.spl_sound.specs.spl_meaning.Names.{find};
ghost use Rattle.spl_places.specs.NameMaps.{entries_of};
ghost use Rattle.spl_modules.specs.Made.{made_of};
ghost use Rattle.spl_modules.specs.Entered.{and_made, and_procedure, entered_of, with_entry};

use spl_branch::Entry;
use spl_places::NameMap;
use spl_tree::Name;
use std::alloc::{AllocError, Global};

/// The entries of the module that a unit has in a segment.
#[derive(Debug, Drop)]
pub struct ModuleEntries {
    /// In order of text, each with the mark of its number.
    pub entries: Vec<Entry>,
    /// The indexes of procedures among them.
    pub procedures: NameMap<usize>,
}

impl ModuleEntries {
    /// No entry.
    fn new(alloc: Global) -> ModuleEntries
        ensures entries { map made_of result.entries.items ≡ [] }
        ensures procedures { find (entries_of result.procedures) ≡ find [] }
    {
        ModuleEntries {
            entries: Vec::new(alloc),
            procedures: NameMap::new(alloc),
        }
    }

    /// Takes in an entry, and answers its index.
    fn add(&mut self, name: &Name, callable: bool) -> Result<usize, AllocError>
        ensures index { IfOk result (λ k. k ≡ length (map made_of self.old.entries.items)) }
        ensures entries { OnOk result (map made_of self.new.entries.items ≡ and_made (map made_of self.old.entries.items) (letters name.now) callable) }
        ensures procedures { OnOk result (find (entries_of self.new.procedures) ≡ and_procedure (find (entries_of self.old.procedures)) (letters name.now) callable (length (map made_of self.old.entries.items))) }
    {
        let index = self.entries.len();
        self.entries.push(Entry {
            name: name.copy(),
            mark: index,
            callable,
        })?;
        if callable {
            self.procedures.add(name, index)?;
        }
        Ok(index)
    }
}

/// Makes empty modules, up to that of a segment.
fn reach(alloc: Global, modules: &mut Vec<ModuleEntries>, segment: u16) -> Result<(), AllocError>
    ensures there { OnOk result (segment < length modules.new.items) }
    ensures entered { OnOk result (entered_of modules.new.items ≡ entered_of modules.old.items) }
{
    for _ in modules.len()..usize::from(segment) + 1 {
        modules.push(ModuleEntries::new(alloc))?;
    }
    Ok(())
}

/// Takes an entry into the module of its segment, and answers its index there.
pub fn enter(
    alloc: Global,
    modules: &mut Vec<ModuleEntries>,
    segment: u16,
    name: &Name,
    callable: bool,
) -> Result<usize, AllocError>
    ensures index { IfOk result (λ k. k ≡ length ((entered_of modules.old.items).made segment)) }
    ensures entered { OnOk result (entered_of modules.new.items ≡ with_entry (entered_of modules.old.items) (letters name.now) segment callable) }
{
    reach(alloc, modules, segment)?;
    let module = &mut modules[usize::from(segment)];
    let index = module.add(name, callable)?;
    Ok(index)
}
