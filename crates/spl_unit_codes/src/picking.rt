//! The order of modules: that in which the program first uses their segments.
ghost use Rattle.std.specs.Prelude.{◌≡◌, ◌++◌, map, OnOk, IfOk};
ghost use Rattle.spl_tree.specs.Spells.{declaration};
ghost use Rattle.spl_tree.specs.Views.{letters};
ghost use Rattle.spl_module_code.specs.spl_meaning.Names.{find};
ghost use Rattle.spl_module_code.specs.spl_sound.Spelled.{source_of};
ghost use Rattle.spl_module_code.specs.spl_places.NameMaps.{entries_of};
ghost use Rattle.spl_branch.specs.declared.modules.Module.{Module};
ghost use Rattle.spl_module_code.specs.Modules.{named_segment, uses_in, uses_of, program_uses, numbered};
ghost use Rattle.spl_unit_codes.specs.Slots.{TakenFrom, PickedFrom};

use spl_branch::Module;
use spl_spots::NameMap;
use spl_tree::{Decl, Name, SplUnit};
use std::alloc::{AllocError, Global};

/// Puts the name of a segment of a unit at the end, by its number.
fn use_segment(unit: &SplUnit, segment: u16, names: &mut Vec<Name>) -> Result<(), AllocError>
    ensures { OnOk result (map letters names.new.items ≡ map letters names.old.items ++ named_segment (source_of unit.now) segment) }
{
    match unit.segments.get(usize::from(segment)) {
        Some(name) => names.push(name.copy())?,
        None => {}
    }
    Ok(())
}

/// Puts the segment of a declaration at the end, where it is a procedure.
fn use_declared(unit: &SplUnit, item: &Decl, names: &mut Vec<Name>) -> Result<(), AllocError>
    ensures { OnOk result (map letters names.new.items ≡ map letters names.old.items ++ uses_in (source_of unit.now) (declaration item.now)) }
{
    match item {
        Decl::Procedure(heading, _) => use_segment(unit, heading.segment, names),
        Decl::Data { .. }
        | Decl::Equate(_)
        | Decl::Intrinsic(_)
        | Decl::Label(_)
        | Decl::Forward(_)
        | Decl::External(_)
        | Decl::Subroutine(..) => Ok(()),
    }
}

/// Puts the segments of a unit's bodies at the end, in order of text, the main body last.
fn use_all(unit: &SplUnit, names: &mut Vec<Name>) -> Result<(), AllocError>
    ensures { OnOk result (map letters names.new.items ≡ map letters names.old.items ++ uses_of (source_of unit.now)) }
{
    for item in &unit.items {
        use_declared(unit, item, names)?;
    }
    if unit.subprogram {
        Ok(())
    } else {
        use_segment(unit, unit.segment, names)
    }
}

/// The names of the segments of all bodies of a program, in order.
pub fn used_segments(alloc: Global, units: &[SplUnit]) -> Result<Vec<Name>, AllocError>
    ensures { IfOk result (λ names. map letters names.items ≡ program_uses (map source_of units.now)) }
{
    let mut names = Vec::new(alloc);
    for unit in units {
        use_all(unit, &mut names)?;
    }
    Ok(names)
}

/// The numbers of a unit's segments, by name.
pub fn segment_numbers(alloc: Global, unit: &SplUnit) -> Result<NameMap<usize>, AllocError>
    ensures { IfOk result (λ numbers. find (entries_of numbers) ≡ find (numbered 0 (source_of unit.now).segments)) }
{
    let mut numbers = NameMap::new(alloc);
    for (number, name) in unit.segments.iter().enumerate() {
        numbers.add(name, number)?;
    }
    Ok(numbers)
}

/// Takes the module out of a slot, where there is one.
fn take(
    number: Option<usize>,
    slots: &mut Vec<Option<Module>>,
    modules: &mut Vec<Module>,
) -> Result<(), AllocError>
    ensures { OnOk result (TakenFrom number slots.old.items slots.new.items modules.old.items modules.new.items) }
{
    if let Some(number) = number {
        if number < slots.len() {
            if let Some(module) = slots[number].take() {
                modules.push(module)?;
            }
        }
    }
    Ok(())
}

/// Appends modules along the names of segments, each where its name comes first.
pub fn pick(
    numbers: &NameMap<usize>,
    slots: Vec<Option<Module>>,
    names: &[Name],
    modules: &mut Vec<Module>,
) -> Result<(), AllocError>
    ensures { OnOk result (PickedFrom (find (entries_of numbers.now)) slots.items (map letters names.now) modules.old.items modules.new.items) }
{
    let mut slots = slots;
    for name in names {
        take(numbers.find(name), &mut slots, modules)?;
    }
    Ok(())
}
