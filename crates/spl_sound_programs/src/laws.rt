//! The laws of this crate, as the contracts of functions that do nothing.
ghost use Rattle.spl_sound_programs.specs.Laws.{SoundProgramsAreCovered, SoundProgramsCarry};

use spl_linked_names::covered_programs_carry;

/// Programs that break no rule are covered: their main bodies, procedures and subroutines.
pub fn sound_programs_are_covered()
    ensures { SoundProgramsAreCovered }
{}

/// So such programs carry their units.
pub fn sound_programs_carry()
    ensures { SoundProgramsCarry }
{
    covered_programs_carry();
}
