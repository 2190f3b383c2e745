//! The laws of this crate, as the contracts of functions that do nothing.
ghost use Rattle.spl_module_names.specs.Outlines.{ModulesHaveOneOutline, SegmentsHaveOneCount};
ghost use Rattle.spl_module_names.specs.Faults.{FirstFaultsAgree, OneFaultIsTold, NoneIsBuilt};

/// Two lists of modules of the same units are as long, and one by one agree in all but words: the segment, what is defined and
/// wanted in order, and whether the main body is there.
pub fn modules_have_one_outline()
    ensures { ModulesHaveOneOutline }
{}

/// They make the same segments in the same order, each with as many entries.
pub fn segments_have_one_count()
    ensures { SegmentsHaveOneCount }
{}

/// The first fault of the one is that of the other, if words have no part in it.
pub fn first_faults_agree()
    ensures { FirstFaultsAgree }
{}

/// If such a fault may be told of units, then no other may.
pub fn one_fault_is_told()
    ensures { OneFaultIsTold }
{}

/// Then no program is built of them, either.
pub fn none_is_built()
    ensures { NoneIsBuilt }
{}
