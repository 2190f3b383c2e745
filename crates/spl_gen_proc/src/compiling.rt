//! The modules of a program.
ghost use Rattle.std.specs.Prelude.{map, IfOk};
ghost use Rattle.spl_tree.specs.Views.{letters};
ghost use Rattle.spl_sound.specs.Spelled.{source_of};
ghost use Rattle.spl_layout.specs.Layouts.{IsLayout};
ghost use Rattle.spl_unit_laws.specs.spl_places.Programs.{Each};
ghost use Rattle.spl_unit_laws.specs.Begins.{UnitsBegin};
ghost use Rattle.spl_unit_laws.specs.Units.{OnceInBodies, UnitsStand};
ghost use Rattle.spl_unit_laws.specs.spl_module_code.Modules.{AreModules};

use crate::units::unit_modules;
use spl_branch::Module;
use spl_layout::{Layout, Room, first_areas};
use spl_sound::Sound;
use spl_tree::{Name, SplUnit};
use spl_unit_codes::used_segments;
use spl_unit_laws::Start;
use std::alloc::{AllocError, Global};

/// The modules of units, the first of which begins there.
fn all_modules(
    alloc: Global,
    units: &[SplUnit],
    start: Start,
    rooms: &[Room],
    names: &[Name],
) -> Result<Vec<Module>, AllocError>
    requires once { Each OnceInBodies (map source_of units.now) }
    requires begin { UnitsBegin rooms.now (map source_of units.now) start }
    ensures { IfOk result (λ ms. UnitsStand rooms.now (map letters names.now) (map source_of units.now) start ms.items) }
{
    let mut modules = Vec::new(alloc);
    let mut at = start;
    for unit in units {
        at = unit_modules(alloc, unit, at, rooms, names, &mut modules)?;
    }
    Ok(modules)
}

/// The modules of a program with its layout: one for each unit and each segment that it uses, units in order and within a
/// unit the segments in the order in which the program first uses them.
///
/// A module of more than 16,383 words is oversized, so that no program is too long to be compiled. Want of memory alone is an
/// error.
pub fn compile(alloc: Global, sound: &Sound, layout: &Layout) -> Result<Vec<Module>, AllocError>
    requires { IsLayout (map source_of sound.now.units.items) layout.now }
    ensures { IfOk result (λ ms. AreModules (map source_of sound.now.units.items) ms.items) }
{
    let (areas, _words) = first_areas(alloc, &sound.units)?;
    let start = Start {
        primary: areas.primary,
        own: areas.own,
        own_arrays: areas.own_arrays,
        room: 0,
    };
    let names = used_segments(alloc, &sound.units)?;
    let modules = all_modules(alloc, &sound.units, start, &layout.bodies, &names)?;
    Ok(modules)
}
