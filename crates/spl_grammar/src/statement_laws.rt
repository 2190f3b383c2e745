//! Laws of statements, each as the contract of a function that does nothing.
ghost use Rattle.spl_grammar.specs.StatementLaws.{StatementsAreRead, StatementsAreExplained, StatementFaultsStand, StatementsAreUnique, StatementPrefixesAreCompleted, StatementsReach, StatementsSinkFirst, StatementsAreLongest, StatementsFailFirst};

/// What is spelled as a statement is read, unless it is too deep before its end.
pub fn statements_are_read()
    ensures { StatementsAreRead }
{}

/// What is read as a statement is spelled, and each fault comes behind tokens that open one.
pub fn statements_are_explained()
    ensures { StatementsAreExplained }
{}

/// A fault in a statement depends on no token behind its place.
pub fn statement_faults_stand()
    ensures { StatementFaultsStand }
{}

/// A list begins with at most one statement.
pub fn statements_are_unique()
    ensures { StatementsAreUnique }
{}

/// Whatever opens a statement can be completed to one.
pub fn statement_prefixes_are_completed()
    ensures { StatementPrefixesAreCompleted }
{}

/// No chain of a statement goes further than what is read.
pub fn statements_reach()
    ensures { StatementsReach }
{}

/// Where a statement is too deep at a token, it is too deep at none before.
pub fn statements_sink_first()
    ensures { StatementsSinkFirst }
{}

/// What is read as a statement is the longest: no chain goes over the token behind it.
pub fn statements_are_longest()
    ensures { StatementsAreLongest }
{}

/// No chain of a statement goes over the token at which a fault stands.
pub fn statements_fail_first()
    ensures { StatementsFailFirst }
{}
