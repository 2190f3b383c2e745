//! The laws of this crate, as the contracts of functions that do nothing.
ghost use Rattle.spl_sound_bodies.specs.Laws.{SoundStatementsArePlain, SoundListsArePlain, SoundProceduresAreSettable};

/// A statement that breaks no rule is plain.
pub fn sound_statements_are_plain()
    ensures { SoundStatementsArePlain }
{}

/// So are those of a list.
pub fn sound_lists_are_plain()
    ensures { SoundListsArePlain }
{}

/// The entry of a procedure that breaks no rule sets its cells and initial values.
pub fn sound_procedures_are_settable()
    ensures { SoundProceduresAreSettable }
{}
