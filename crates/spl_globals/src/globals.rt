//! The initial data words of a program.
ghost use Rattle.std.specs.Prelude.{◌≡◌, OnOk, IfOk, map, length, replicate};
ghost use Rattle.spl_sorts.specs.spl_meaning.Places.{put_cells, put_initials};
ghost use Rattle.spl_sorts.specs.spl_meaning.Bodies as bodies;
ghost use Rattle.spl_sorts.specs.spl_meaning.Bodies.{program_of};
ghost use Rattle.spl_sorts.specs.spl_meaning.Runs.{global_address, zeros};
ghost use Rattle.spl_areas.specs.spl_sound.Spelled.{source_of};
ghost use Rattle.spl_initials.specs.spl_places.Programs.{NewInAll};
ghost use Rattle.spl_initials.specs.Memory.{memory_of};
ghost use Rattle.spl_globals.specs.declared.stored.Pass.TheVariants as pass;
ghost use Rattle.spl_globals.specs.Stored.{units_stored};

use crate::areas::{Areas, first_areas};
use crate::stored::Pass;
use crate::units::units_stored;
use spl_tree::SplUnit;
use std::alloc::{AllocError, Global};

/// So many words of zero.
#[tactic(auto, using(crate::proofs::ZeroLemmas::zero_memory))]
fn zero_words(alloc: Global, count: u64) -> Result<Vec<u16>, AllocError>
    ensures { IfOk result (λ words. memory_of words.items ≡ zeros count) }
{
    let Ok(count) = usize::try_from(count) else {
        return Err(AllocError);
    };
    let words = vec![in alloc; 0; count]?;
    Ok(words)
}

/// Stores all cells, and then all initial values, where the data of the first unit start there.
fn fill(alloc: Global, words: &mut [u16], areas: Areas, units: &[SplUnit]) -> Result<(), AllocError>
    ensures { OnOk result (memory_of words.new ≡ units_stored pass.Initials areas (map source_of units.now) (units_stored pass.Cells areas (map source_of units.now) (memory_of words.old))) }
{
    units_stored(alloc, Pass::Cells, words, areas, units)?;
    units_stored(alloc, Pass::Initials, words, areas, units)?;
    Ok(())
}

/// The initial data words of units, by address: the primary area with the globals of the units that are no subprograms
/// and then the OWN items of all units, and the data of arrays in the same order. All are zero but for cells and
/// initial values. An error is want of memory, or more words than there is memory for.
pub fn data_words(alloc: Global, units: &[SplUnit]) -> Result<Vec<u16>, AllocError>
    requires { NewInAll (map source_of units.now) }
    ensures { IfOk result (λ words. memory_of words.items ≡ put_initials global_address (program_of (map source_of units.now)).initials (put_cells global_address (program_of (map source_of units.now)).cells (zeros (bodies.data_words (map source_of units.now))))) }
{
    let found = first_areas(alloc, units)?;
    let areas = found.0;
    let count = found.1;
    let mut words = zero_words(alloc, count)?;
    fill(alloc, &mut words, areas, units)?;
    Ok(words)
}
