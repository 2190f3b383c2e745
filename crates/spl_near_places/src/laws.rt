//! The laws of this crate, as the contracts of functions that do nothing.
ghost use Rattle.spl_near_places.specs.Laws.{BodiesOfUnitsAreNear, SubroutinesAreNear, SplitNamesAreFramed};

/// Where units break no rule and pass no limit, the names and results of main bodies and procedures are near.
pub fn bodies_of_units_are_near()
    ensures { BodiesOfUnitsAreNear }
{}

/// So are those of their subroutines.
pub fn subroutines_are_near()
    ensures { SubroutinesAreNear }
{}

/// The items and parameters of a split procedure stand in its frame.
pub fn split_names_are_framed()
    ensures { SplitNamesAreFramed }
{}
