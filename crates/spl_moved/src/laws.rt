//! The laws of this crate, as the contracts of functions that do nothing.
ghost use Rattle.spl_moved.specs.Laws.{MovesAreWhole, MovesPerform, AnswersAreWhole, MovesAnswer};

/// MOVE and SCAN as statements, where each part of them is covered.
pub fn covered_moves_perform()
    ensures whole { MovesAreWhole }
    ensures performs { MovesPerform }
{}

/// MOVE and SCAN as values, likewise.
pub fn covered_moves_answer()
    ensures whole { AnswersAreWhole }
    ensures answers { MovesAnswer }
{}
