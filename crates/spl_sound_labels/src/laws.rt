//! The law of this crate, as the contract of a function that does nothing.
ghost use Rattle.spl_sound_labels.specs.Labels.{SoundLabelsStandOnce, SoundSubprogramsHaveNoSubroutines};

/// In units that break no rule no label stands twice in one body: a main body, a procedure or a subroutine.
pub fn sound_labels_stand_once()
    ensures { SoundLabelsStandOnce }
{}

/// A subprogram that breaks no rule has no subroutines.
pub fn sound_subprograms_have_no_subroutines()
    ensures { SoundSubprogramsHaveNoSubroutines }
{}
