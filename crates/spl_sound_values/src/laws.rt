//! The laws of this crate, as the contract of a function that does nothing.
ghost use Rattle.spl_sound_values.specs.Laws.{SoundValuesAreCovered};

/// An expression that breaks no rule is covered.
pub fn sound_values_are_covered()
    ensures { SoundValuesAreCovered }
{}
