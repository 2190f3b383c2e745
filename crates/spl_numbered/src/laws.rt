//! The law of this crate, as the contract of a function that does nothing.
ghost use Rattle.spl_numbered.specs.Laws.{TextsNumberSegments};

/// A unit that the tokens of a text spell numbers the text's segments.
pub fn texts_number_segments()
    ensures { TextsNumberSegments }
{}
