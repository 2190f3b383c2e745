//! The laws of this crate, as the contracts of functions that do nothing.
ghost use Rattle.spl_bounds.specs.Bounds.{PartsHaveFewEntries, PartsKeepBounds};
ghost use Rattle.spl_bounds.specs.Segments.{ModulesMakeSegments};
ghost use Rattle.spl_bounds.specs.Programs.{ProgramsKeepBounds, SegmentsHaveFewWords, DataWordsAreInitial};

/// Each segment that modules of units make has at most as many entries as the units' trees have for it.
pub fn parts_have_few_entries()
    ensures { PartsHaveFewEntries }
{}

/// And so it has, with its table, at most as many words as the segment of its name may have.
pub fn parts_keep_bounds()
    ensures { PartsKeepBounds }
{}

/// Modules of units that number their segments make the units' segments, in their order.
pub fn modules_make_segments()
    ensures { ModulesMakeSegments }
{}

/// So a program that is made of them has these segments, each within the bound of its name.
pub fn programs_keep_bounds()
    ensures { ProgramsKeepBounds }
{}

/// No segment of a program has more words than the greatest bound, however the units number theirs.
pub fn segments_have_few_words()
    ensures { SegmentsHaveFewWords }
{}

/// Data words that stand in memory as a run of units finds them are those with which it begins.
pub fn data_words_are_initial()
    ensures { DataWordsAreInitial }
{}
