//! Laws of expressions and conditions, each as the contract of a function that does nothing.
ghost use Rattle.spl_grammar.specs.ExpressionLaws.{ExpressionsAreRead, ConditionsAreRead, ExpressionsAreExplained, ConditionsAreExplained, ExpressionFaultsStand, ConditionFaultsStand, ExpressionsAreUnique, ConditionsAreUnique, ExpressionPrefixesAreCompleted, ConditionPrefixesAreCompleted, ExpressionsReach, ExpressionsSinkFirst, ExpressionsAreLongest, ExpressionsFailFirst, ConditionsReach, ConditionsSinkFirst, ConditionsAreLongest, ConditionsFailFirst};

/// What is spelled as an expression is read, unless it is too deep before its end.
pub fn expressions_are_read()
    ensures { ExpressionsAreRead }
{}

/// What is spelled as a condition is read, unless it is too deep before its end.
pub fn conditions_are_read()
    ensures { ConditionsAreRead }
{}

/// What is read as an expression is spelled, and each fault comes behind tokens that open one.
pub fn expressions_are_explained()
    ensures { ExpressionsAreExplained }
{}

/// What is read as a condition is spelled, and each fault comes behind tokens that open one.
pub fn conditions_are_explained()
    ensures { ConditionsAreExplained }
{}

/// A fault in an expression depends on no token behind its place.
pub fn expression_faults_stand()
    ensures { ExpressionFaultsStand }
{}

/// A fault in a condition depends on no token behind its place.
pub fn condition_faults_stand()
    ensures { ConditionFaultsStand }
{}

/// A list begins with at most one expression.
pub fn expressions_are_unique()
    ensures { ExpressionsAreUnique }
{}

/// A list begins with at most one condition.
pub fn conditions_are_unique()
    ensures { ConditionsAreUnique }
{}

/// Whatever opens an expression can be completed to one.
pub fn expression_prefixes_are_completed()
    ensures { ExpressionPrefixesAreCompleted }
{}

/// Whatever opens a condition can be completed to one.
pub fn condition_prefixes_are_completed()
    ensures { ConditionPrefixesAreCompleted }
{}

/// No chain of an expression goes further than what is read.
pub fn expressions_reach()
    ensures { ExpressionsReach }
{}

/// Where an expression is too deep at a token, it is too deep at none before.
pub fn expressions_sink_first()
    ensures { ExpressionsSinkFirst }
{}

/// What is read as an expression is the longest: no chain goes over the token behind it.
pub fn expressions_are_longest()
    ensures { ExpressionsAreLongest }
{}

/// No chain of an expression goes over the token at which a fault stands.
pub fn expressions_fail_first()
    ensures { ExpressionsFailFirst }
{}

/// No chain of a condition goes further than what is read.
pub fn conditions_reach()
    ensures { ConditionsReach }
{}

/// Where a condition is too deep at a token, it is too deep at none before.
pub fn conditions_sink_first()
    ensures { ConditionsSinkFirst }
{}

/// What is read as a condition is the longest: no chain goes over the token behind it.
pub fn conditions_are_longest()
    ensures { ConditionsAreLongest }
{}

/// No chain of a condition goes over the token at which a fault stands.
pub fn conditions_fail_first()
    ensures { ConditionsFailFirst }
{}
