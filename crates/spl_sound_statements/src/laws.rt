//! The laws of this crate, as the contract of a function that does nothing.
ghost use Rattle.spl_sound_statements.specs.Laws.{SoundStatementsAreCovered, SoundListsAreCovered};

/// A statement that breaks no rule is covered, and so are those of a list.
pub fn sound_statements_are_covered()
    ensures statement { SoundStatementsAreCovered }
    ensures list { SoundListsAreCovered }
{}
