//! The first limit that a program passes.
ghost use Rattle.std.specs.Prelude.{◌≡◌, OnOk, IfOk, IfErr, map, None, option_map};
ghost use Rattle.spl_sound.specs.spl_meaning.Limits.{first_full};
ghost use Rattle.spl_sound.specs.Spelled.{source_of};
ghost use Rattle.spl_areas.specs.spl_spots.Fulls.{full_of};
ghost use Rattle.spl_limits.specs.Answers.{IsFull};

use crate::faults::LimitFault;
use crate::units::bodies_passed;
use spl_areas::program_globals;
use spl_areas::spl_spots::{FirstFull, Full};
use spl_sound::Sound;
use std::alloc::{AllocError, Global};

/// The first limit, where one is passed.
fn first_limit(alloc: Global, sound: &Sound) -> Result<Option<Full>, AllocError>
    ensures { IfOk result (λ full. option_map full_of full ≡ first_full (map source_of sound.now.units.items)) }
{
    let mut first = FirstFull::new();
    program_globals(alloc, &sound.units, &mut first)?;
    bodies_passed(alloc, &sound.units, &mut first)?;
    Ok(first.first())
}

/// That a program passes no limit of places.
///
/// Err: the first that it passes: of the earliest unit, line and column, there the lowest, with the sum by which it
/// passes it; `NoMemory`.
pub fn limits(alloc: Global, sound: &Sound) -> Result<(), LimitFault>
    ensures within { OnOk result (first_full (map source_of sound.now.units.items) ≡ None) }
    ensures full { IfErr result (λ fault. IsFull (map source_of sound.now.units.items) fault) }
{
    match first_limit(alloc, sound)? {
        Some(full) => Err(LimitFault::Full {
            limit: full.limit,
            at: full.at,
            count: full.count,
        }),
        None => Ok(()),
    }
}
