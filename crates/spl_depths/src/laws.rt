//! The laws of this crate, as the contracts of functions that do nothing.
ghost use Rattle.spl_depths.specs.HeadingLaws.{HeadingsHaveFewWords};
ghost use Rattle.spl_depths.specs.ReachLaws.{FirstUseIsFound};

/// What is found along a subroutine's statement is the first of the limits that its uses of parameters and result pass.
pub fn first_use_is_found()
    ensures { FirstUseIsFound }
{}

/// A heading that passes no limit has a result and parameters of at most 59 words.
pub fn headings_have_few_words()
    ensures { HeadingsHaveFewWords }
{}
