//! The code of a unit in a segment while it grows.
ghost use Rattle.std.specs.Prelude.{◌≡◌, map, IfOk};
ghost use Rattle.spl_tree.specs.Views.{letters};
ghost use Rattle.spl_module_code.specs.spl_sound.Spelled.{source_of};
ghost use Rattle.spl_module_code.specs.spl_modules.Made.{made_of};
ghost use Rattle.spl_module_code.specs.spl_modules.Walks.{walk_of};
ghost use Rattle.spl_unit_codes.specs.Begun.{IsBegun, AreBegun};
ghost use Rattle.spl_branch.specs.Codes.{IsComplete};
ghost use Rattle.spl_unit_codes.specs.Slots.{AreComplete, IsSlot, AreSlots};

use spl_branch::{Code, Entry, Module};
use spl_modules::UnitEntries;
use spl_tree::{Name, SplUnit};
use std::alloc::{AllocError, Global};

/// The code of a unit in a segment while it grows.
#[derive(Debug, Drop)]
pub struct Growing {
    pub code: Code,
    /// How many of its entries have their code. These are the first ones.
    pub done: u64,
}

/// Entries equal to these.
fn copied(alloc: Global, entries: &[Entry]) -> Result<Vec<Entry>, AllocError>
    ensures { IfOk result (λ copies. map made_of copies.items ≡ map made_of entries.now) }
{
    let mut copies = Vec::with_capacity(alloc, entries.len())?;
    for entry in entries {
        copies.push(Entry {
            name: entry.name.copy(),
            mark: entry.mark,
            callable: entry.callable,
        })?;
    }
    Ok(copies)
}

/// The entries of a segment by its number.
fn entries_at(entries: &UnitEntries, number: usize) -> &[Entry]
    ensures { map made_of result.now ≡ (walk_of entries.now).entered.made number }
{
    if number < entries.modules.len() {
        &entries.modules[number].entries
    } else {
        &[]
    }
}

/// The code of a segment before its first body: a mark for each entry, and one for a main body.
fn begun(
    alloc: Global,
    name: &Name,
    entries: &[Entry],
    has_main: bool,
) -> Result<Growing, AllocError>
    ensures { IfOk result (λ x. IsBegun (letters name.now) (map made_of entries.now) has_main x) }
{
    let count = entries.len();
    let main = if has_main { Some(count) } else { None };
    let entries = copied(alloc, entries)?;
    let mut code = Code::new(alloc, name.copy(), entries, main);
    for _ in 0..count {
        code.fresh()?;
    }
    if has_main {
        code.fresh()?;
    }
    Ok(Growing { code, done: 0 })
}

/// The code of a unit in each of its segments before the first body.
pub fn begin(
    alloc: Global,
    unit: &SplUnit,
    entries: &UnitEntries,
) -> Result<Vec<Growing>, AllocError>
    ensures { IfOk result (λ parts. AreBegun (source_of unit.now) (walk_of entries.now).entered.made parts.items) }
{
    let mut parts = Vec::with_capacity(alloc, unit.segments.len())?;
    for (number, name) in unit.segments.iter().enumerate() {
        let has_main = !unit.subprogram && usize::from(unit.segment) == number;
        let part = begun(alloc, name, entries_at(entries, number), has_main)?;
        parts.push(part)?;
    }
    Ok(parts)
}

/// The module that a code becomes, where its unit has a body in its segment.
fn finished(alloc: Global, part: Growing) -> Result<Option<Module>, AllocError>
    requires { IsComplete part.code }
    ensures { IfOk result (λ o. IsSlot part.code o) }
{
    let Growing { code, done: _done } = part;
    if code.entries.is_empty() && code.main.is_none() {
        return Ok(None);
    }
    let module = code.finish(alloc)?;
    Ok(Some(module))
}

/// The modules that the codes of a unit become, each by the number of its segment.
pub fn finish(alloc: Global, parts: Vec<Growing>) -> Result<Vec<Option<Module>>, AllocError>
    requires { AreComplete parts.items }
    ensures { IfOk result (λ slots. AreSlots parts.items slots.items) }
{
    let mut slots = Vec::with_capacity(alloc, parts.len())?;
    for part in parts {
        slots.push(finished(alloc, part)?)?;
    }
    Ok(slots)
}
