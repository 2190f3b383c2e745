//! The laws of this crate, as the contracts of functions that do nothing.
ghost use Rattle.spl_shapes.specs.Laws.{SpelledUnitsAreShaped, CutTokensHaveBytes};

/// Units that tokens spell have operators that there are, references where these have to be, and strings of bytes.
pub fn spelled_units_are_shaped()
    ensures { SpelledUnitsAreShaped }
{}

/// The letters of the tokens of a text are bytes.
pub fn cut_tokens_have_bytes()
    ensures { CutTokensHaveBytes }
{}
