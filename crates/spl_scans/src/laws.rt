//! The laws of this crate, as the contracts of functions that do nothing.
ghost use Rattle.spl_scans.specs.Laws.{TextMovesPerform, ClassMovesPerform, ScansPerform};
ghost use Rattle.spl_scans.specs.Laws.{TextMovesAnswer, ClassMovesAnswer, ScansAnswer};

/// MOVE of a string.
pub fn text_moves_perform()
    ensures performs { TextMovesPerform }
    ensures answers { TextMovesAnswer }
{}

/// MOVE of bytes WHILE these are of a class.
pub fn class_moves_perform()
    ensures performs { ClassMovesPerform }
    ensures answers { ClassMovesAnswer }
{}

/// SCAN WHILE and SCAN UNTIL.
pub fn scans_perform()
    ensures performs { ScansPerform }
    ensures answers { ScansAnswer }
{}
