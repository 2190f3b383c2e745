//! The law of this crate, as the contract of a function that does nothing.
ghost use Rattle.spl_carried.specs.Laws.{CoveredProgramsCarry};

use spl_bounds::{data_words_are_initial, programs_keep_bounds};
use spl_callable::{
    callables_follow, followed_programs_carry, main_bodies_follow, sound_inners_land,
    sound_jumps_land, sound_routines_land,
};
use spl_sound_beginnings::{modules_have_kinds, sound_units_begin_well};

/// A program that is made of units whose main body is covered, with calls of procedures and subroutines that are, carries them.
pub fn covered_programs_carry()
    ensures { CoveredProgramsCarry }
{
    modules_have_kinds();
    sound_units_begin_well();
    sound_jumps_land();
    sound_routines_land();
    sound_inners_land();
    callables_follow();
    programs_keep_bounds();
    data_words_are_initial();
    main_bodies_follow();
    followed_programs_carry();
}
