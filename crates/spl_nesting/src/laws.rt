//! The laws of this crate, as the contracts of functions that do nothing.
ghost use Rattle.spl_nesting.specs.NestingLaws.{StatementsNest, FewForsNest, SpelledUnitsNest};
ghost use Rattle.spl_nesting.specs.HeightLaws.{FewPartsWait, FewPartsWaitInUnits, PartsHaveFewWords, DepthsFit};

/// In a unit that tokens spell, at most 64 constructs stand around a statement.
pub fn statements_nest()
    ensures { StatementsNest }
{}

/// So at most 64 FORs do.
pub fn few_fors_nest()
    ensures { FewForsNest }
{}

/// Both hold of each unit that the checker of rules is handed.
pub fn spelled_units_nest()
    ensures { SpelledUnitsNest }
{}

/// In a unit that tokens spell, at most 969 parts wait at one point.
pub fn few_parts_wait()
    ensures { FewPartsWait }
{}

/// So it is in each unit that the checker of rules is handed.
pub fn few_parts_wait_in_units()
    ensures { FewPartsWaitInUnits }
{}

/// Each has at most 63 words, where no call has more.
pub fn parts_have_few_words()
    ensures { PartsHaveFewWords }
{}

/// So the depths of bodies fit a word.
pub fn depths_fit()
    ensures { DepthsFit }
{}
