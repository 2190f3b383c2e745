//! The level of a whole unit.
ghost use Rattle.std.specs.Prelude.{◌≡◌, map, OnOk, IfOk};
ghost use Rattle.spl_tree.specs.DeclarationTrees as decl;
ghost use Rattle.spl_tree.specs.Spells.{declaration};
ghost use Rattle.spl_sound.specs.Spelled.{source_of};
ghost use Rattle.spl_unit_laws.specs.spl_body_scopes.Levels.{level_of};
ghost use Rattle.spl_unit_laws.specs.Units as u;
ghost use Rattle.spl_unit_walks.specs.Views.{levels_behind};

use spl_body_scopes::{Level, declare, unit_level};
use spl_tree::{Decl, SplUnit};
use std::alloc::{AllocError, Global};

/// Declares all of a unit's declarations.
fn declare_all(alloc: Global, level: &mut Level, list: &[Decl]) -> Result<(), AllocError>
    ensures { OnOk result (level_of level.new ≡ levels_behind (level_of level.old) (decl.declarations (map declaration list.now))) }
{
    for item in list {
        declare(alloc, level, item)?;
    }
    Ok(())
}

/// The level of a unit's list, behind all declarations, where its data begin at that primary address. An error is as in `unit_level`.
pub fn whole_level(alloc: Global, primary: u64, unit: &SplUnit) -> Result<Level, AllocError>
    ensures { IfOk result (λ level. level_of level ≡ u.whole_level (source_of unit.now) primary) }
{
    let (mut level, _next) = unit_level(alloc, primary, unit)?;
    declare_all(alloc, &mut level, &unit.items)?;
    Ok(level)
}
