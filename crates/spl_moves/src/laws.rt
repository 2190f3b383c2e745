//! The law of this crate, as the contract of a function that does nothing.
ghost use Rattle.spl_moves.specs.Laws.{CountedMovesPerform, CountedMovesAnswer};

/// MOVE of so many elements, by itself and as a value.
pub fn counted_moves_perform()
    ensures performs { CountedMovesPerform }
    ensures answers { CountedMovesAnswer }
{}
