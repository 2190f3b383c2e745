//! What holds of the code of every statement.
ghost use Rattle.spl_statement_code.specs.FewWords.{StatementHasFewWords, StatementsHaveFewWords};

/// The code of a statement has at most 24 words for each node of its tree, and the words of its strings, with 12 words fewer.
/// No more than 255 words wait anywhere in it.
pub fn statement_has_few_words()
    ensures { StatementHasFewWords }
{}

/// So has that of the statements of a list, one behind the other.
pub fn statements_have_few_words()
    ensures { StatementsHaveFewWords }
{}
