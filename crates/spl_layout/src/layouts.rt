//! The layout of a program.
ghost use Rattle.std.specs.Prelude.{◌≡◌, IfOk, IfErr, map, None};
ghost use Rattle.spl_sound.specs.spl_meaning.Limits.{first_full};
ghost use Rattle.spl_sound.specs.Spelled.{source_of};
ghost use Rattle.spl_limits.specs.Answers.{IsFull};
ghost use Rattle.spl_layout.specs.Layouts.{IsLayout};

use spl_entries::Place;
use spl_entries::spl_globals::data_words;
use spl_limits::{LimitFault, limits};
use spl_rooms::{Room, rooms};
use spl_sound::Sound;
use std::alloc::{AllocError, Global};

/// Where the data of a program stand, and what its bodies need.
#[derive(Debug, Drop)]
pub struct Layout {
    /// The initial data words, by address.
    pub globals: Vec<u16>,
    /// The places of items of data, and of parameters of headings with bodies, in source order over all units.
    pub places: Vec<Place>,
    /// The rooms of main bodies, procedures and subroutines, by place over all units.
    pub bodies: Vec<Room>,
}

/// The layout of units that break no rule, whether or not they pass limits.
fn laid(alloc: Global, sound: &Sound) -> Result<Layout, AllocError>
    ensures { IfOk result (λ layout. IsLayout (map source_of sound.now.units.items) layout) }
{
    Ok(Layout {
        globals: data_words(alloc, &sound.units)?,
        places: spl_entries::places(alloc, &sound.units)?,
        bodies: rooms(alloc, &sound.units)?,
    })
}

/// The layout of a program.
///
/// Err: the first limit that it passes: of the earliest unit, line and column, there the lowest, with the sum by which
/// it passes it; `NoMemory`.
pub fn places(alloc: Global, sound: &Sound) -> Result<Layout, LimitFault>
    ensures layout { IfOk result (λ layout. IsLayout (map source_of sound.now.units.items) layout) }
    ensures within { IfOk result (λ _. first_full (map source_of sound.now.units.items) ≡ None) }
    ensures full { IfErr result (λ fault. IsFull (map source_of sound.now.units.items) fault) }
{
    limits(alloc, sound)?;
    let layout = laid(alloc, sound)?;
    Ok(layout)
}
