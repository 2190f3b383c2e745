//! The laws of this crate, as the contracts of functions that do nothing.
ghost use Rattle.spl_sound_headings.specs.Laws.{HeadingsAreAlike, SubroutinesAreTheirs, MainSubroutinesAreTheirs};

/// The heading by which a procedure is called is like that with its body.
pub fn headings_are_alike()
    ensures { HeadingsAreAlike }
{}

/// The heading by which a subroutine is called is its own.
pub fn subroutines_are_theirs()
    ensures { SubroutinesAreTheirs }
{}

/// So it is with the subroutines of a main body.
pub fn main_subroutines_are_theirs()
    ensures { MainSubroutinesAreTheirs }
{}
