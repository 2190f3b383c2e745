//! The laws of this crate, as the contracts of functions that do nothing.
ghost use Rattle.spl_inners.specs.Laws.{InnersFind, InnersLand};

/// The entry by which a body names a subroutine leads to the code of the subroutine that it means by that name.
pub fn inners_find()
    ensures { InnersFind }
{}

/// Labels and jumps of a subroutine that breaks no rule lead somewhere.
pub fn inners_land()
    ensures { InnersLand }
{}
