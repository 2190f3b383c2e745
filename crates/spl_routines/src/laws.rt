//! The laws of this crate, as the contracts of functions that do nothing.
ghost use Rattle.spl_routines.specs.Laws.{RoutinesStand, RoutinesAreThere, GatesAreServed};

/// The code of each procedure stands in the modules of its unit and segment, and there is one.
pub fn routines_stand()
    ensures in_modules { RoutinesStand }
    ensures somewhere { RoutinesAreThere }
{}

/// The names of intrinsics lead to where these are served.
pub fn gates_are_served()
    ensures { GatesAreServed }
{}
