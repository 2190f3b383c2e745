//! The laws of the area, each as a call without a body: its contract is the law.
ghost use Rattle.mpe_regions.specs.AreaLaws.{RegionsLieInside, RegionsLieApart, HolesAreLowest, HolesAreFound, SmallOnesAreLoaded};

/// Each region lies in the area.
pub fn regions_lie_inside()
    ensures { RegionsLieInside }
{}

/// The regions of two keys have no word in common.
pub fn regions_lie_apart()
    ensures { RegionsLieApart }
{}

/// A hole that is found is the lowest one.
pub fn holes_are_lowest()
    ensures { HolesAreLowest }
{}

/// A hole is found where there is one.
pub fn holes_are_found()
    ensures { HolesAreFound }
{}

/// A segment that is no larger than the area is always loaded, and then live.
pub fn small_ones_are_loaded()
    ensures { SmallOnesAreLoaded }
{}
