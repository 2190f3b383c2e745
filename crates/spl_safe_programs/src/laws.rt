//! The law of this crate, as the contract of a function that does nothing but call those whose laws it stands on.
ghost use Rattle.spl_safe_programs.specs.Laws.{SoundProgramsAreNeverLost};

use spl_inners::{calls_find, inners_find, names_mean};
use spl_linked_calls::{
    bodies_are_safe, covered_lists_are_linked, covered_parts_are_safe, statements_are_safe,
    values_have_their_words,
};
use spl_readings::{bodies_read_alike, statements_read_alike};
use spl_sound_beginnings::{modules_have_kinds, sound_units_begin_well};
use spl_sound_programs::{linked_names_are_unique, sound_programs_are_covered};

/// Runs of units that break no rule, and are linked without a fault, never come to what has no meaning.
pub fn sound_programs_are_never_lost()
    ensures { SoundProgramsAreNeverLost }
{
    sound_programs_are_covered();
    linked_names_are_unique();
    modules_have_kinds();
    sound_units_begin_well();
    calls_find();
    names_mean();
    inners_find();
    bodies_read_alike();
    statements_read_alike();
    covered_lists_are_linked();
    covered_parts_are_safe();
    bodies_are_safe();
    statements_are_safe();
    values_have_their_words();
}
