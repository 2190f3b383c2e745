//! The laws of this crate, as the contracts of functions that do nothing.
ghost use Rattle.spl_linkable.specs.Linkable.{NoFaultIsTold, NoModulesFail, SegmentsKeepBounds};

/// Modules of linkable units have no fault, whichever form each branch takes.
pub fn no_modules_fail()
    ensures { NoModulesFail }
{}

/// So no fault of modules may be told of these units.
pub fn no_fault_is_told()
    ensures { NoFaultIsTold }
{}

/// Each segment of a program that is built has at most as many words as what stands there weighs, and its table.
pub fn segments_keep_bounds()
    ensures { SegmentsKeepBounds }
{}
