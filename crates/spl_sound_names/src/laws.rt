//! The laws of this crate, as the contracts of functions that do nothing.
ghost use Rattle.spl_sound_names.specs.Laws.{UnitNamesAreKnown, LocalNamesAreKnown, ListsAreFound, ParametersAreFound, NamesStay, SubroutinesStandLast};

/// In lists that break no rule what each name stands for is known: in that of a unit, and in that of a procedure.
pub fn names_are_known()
    ensures unit { UnitNamesAreKnown }
    ensures local { LocalNamesAreKnown }
{}

/// Where it is known, it has its place or its entry.
pub fn names_are_found()
    ensures list { ListsAreFound }
    ensures parameters { ParametersAreFound }
{}

/// It stays behind further declarations.
pub fn names_stay()
    ensures { NamesStay }
{}

/// Where tokens spell a unit, only subroutines stand behind a subroutine.
pub fn subroutines_stand_last()
    ensures { SubroutinesStandLast }
{}
