//! The program that is built of units.
ghost use Rattle.std.specs.Prelude.{◌≡◌, ◌≤◌, ◌<◌, ◌^◌, true, None, IfOk, IfErr, OnOk, length, map};
ghost use Rattle.std.specs.List.{list_all};
ghost use Rattle.mpe_segmenter.specs.Counts.{is_well_formed};
ghost use Rattle.mpe_segmenter.specs.Entered.{total};
ghost use Rattle.spl_sound.specs.spl_meaning.Limits.{first_full};
ghost use Rattle.spl_sound.specs.Spelled.{source_of};
ghost use Rattle.spl_built.specs.Built.{IsLinked, IsBuilt};
ghost use Rattle.spl_build.specs.Unbuilt.{IsUnbuilt};
ghost use Rattle.spl_build.specs.Steps.{IsLaid, IsPassed, Fails};

use hp_program::Program;
use mpe_segmenter::{PrepFault, prepare};
use spl_branch::Module;
use spl_fits::programs_fit;
use spl_gen_proc::{Layout, LimitFault, compile, places};
use spl_sound::Sound;
use spl_tree::At;
use std::alloc::{AllocError, Global};
use thiserror::Error;

/// Why no program is built of units.
#[derive(Debug, PartialEq, Eq, Drop, Error)]
pub enum BuildFault {
    /// The first limit of places that they pass, by its number, 1 to 5, with the sum that passes it.
    #[error("limit {limit} is passed by {count}")]
    Limit { limit: u8, at: At, count: u64 },
    /// The first fault of their modules; never want of memory.
    #[error("the modules make no program")]
    Modules(PrepFault),
    /// Memory is wanting.
    #[error("out of memory")]
    NoMemory,
}

impl From<AllocError> for BuildFault {
    ghost use Rattle.std.specs.Prelude.{◌≡◌};
    ghost use Rattle.spl_build.specs.declared.building.BuildFault.TheVariants.{NoMemory};

    ghost from_gives = { λ _ fault. fault ≡ NoMemory };

    fn from(_: AllocError) -> BuildFault {
        BuildFault::NoMemory
    }
}

/// The layout of units.
fn laid(alloc: Global, sound: &Sound) -> Result<Layout, BuildFault>
    ensures laid { IfOk result (λ layout. IsLaid (map source_of sound.now.units.items) layout) }
    ensures passed { IfErr result (λ fault. IsPassed (map source_of sound.now.units.items) fault) }
{
    programs_fit();
    match places(alloc, sound) {
        Ok(layout) => Ok(layout),
        Err(LimitFault::Full { limit, at, count }) => Err(BuildFault::Limit { limit, at, count }),
        Err(LimitFault::NoMemory) => Err(BuildFault::NoMemory),
    }
}

/// The program of modules, with these data words.
fn linked(alloc: Global, modules: Vec<Module>, globals: Vec<u16>) -> Result<Program, BuildFault>
    requires formed { list_all is_well_formed modules.items ≡ true }
    requires few { total modules.items < 2 ^ 32 }
    requires globals { length globals.items ≤ 32000 }
    ensures linked { IfOk result (λ p. IsLinked modules.items globals.items p) }
    ensures fails { IfErr result (λ fault. Fails modules.items fault) }
{
    match prepare(alloc, modules, globals) {
        Ok(program) => Ok(program),
        Err(PrepFault::NoMemory) => Err(BuildFault::NoMemory),
        Err(fault) => Err(BuildFault::Modules(fault)),
    }
}

/// The program that is built of units that break no rule: their layout, their modules, and what the segmenter makes of these.
///
/// Err: the first limit that they pass, as `spl_layout::places` tells it; then the first fault of their modules, as
/// `mpe_segmenter::prepare` tells it. `NoMemory`, where memory is wanting, may come in place of any answer.
pub fn build(alloc: Global, sound: &Sound) -> Result<Program, BuildFault>
    ensures built { IfOk result (λ p. IsBuilt (map source_of sound.now.units.items) p) }
    ensures within { OnOk result (first_full (map source_of sound.now.units.items) ≡ None) }
    ensures fault { IfErr result (λ fault. IsUnbuilt (map source_of sound.now.units.items) fault) }
{
    let layout = laid(alloc, sound)?;
    let modules = compile(alloc, sound, &layout)?;
    let Layout {
        globals,
        places: _places,
        bodies: _bodies,
    } = layout;
    linked(alloc, modules, globals)
}
