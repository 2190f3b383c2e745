//! The modules of a unit, picked as the program uses their segments.
ghost use Rattle.std.specs.Prelude.{map, OnOk};
ghost use Rattle.spl_tree.specs.Views.{letters};
ghost use Rattle.spl_sound.specs.Spelled.{source_of};
ghost use Rattle.spl_unit_laws.specs.spl_unit_codes.Slots.{AreComplete};
ghost use Rattle.spl_unit_walks.specs.Bodies.{PartsPicked};

use spl_branch::Module;
use spl_tree::{Name, SplUnit};
use spl_unit_codes::{Growing, finish, pick, segment_numbers};
use std::alloc::{AllocError, Global};

/// Appends the modules that the codes of a unit become, along the names of segments as the program uses these. Want of
/// memory alone is an error.
pub fn picked_parts(
    alloc: Global,
    unit: &SplUnit,
    parts: Vec<Growing>,
    names: &[Name],
    modules: &mut Vec<Module>,
) -> Result<(), AllocError>
    requires { AreComplete parts.items }
    ensures { OnOk result (PartsPicked (source_of unit.now) (map letters names.now) parts.items modules.old.items modules.new.items) }
{
    let slots = finish(alloc, parts)?;
    let numbers = segment_numbers(alloc, unit)?;
    pick(&numbers, slots, names, modules)?;
    Ok(())
}
