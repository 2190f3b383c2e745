//! What holds of the code of every expression.
ghost use Rattle.spl_code.specs.FewWords.{CodeHasFewWords, ReferenceHasFewWords};

/// The code of an expression has at most 24 words for each node of its tree, and the words of its strings; that of a value 12
/// fewer, and that of a test 8.
pub fn code_has_few_words()
    ensures { CodeHasFewWords }
{}

/// So has that of a reference's address, with 12 words fewer.
pub fn reference_has_few_words()
    ensures { ReferenceHasFewWords }
{}
