//! What a list of tokens comes to as a unit: laws, each as the contract of a function that does nothing.
ghost use Rattle.spl_grammar.specs.Ends.{UnitChainsKeepTheEnd, UnitsAreWhole};
ghost use Rattle.spl_grammar.specs.Verdicts.{VerdictsAreRead, VerdictsAreUnique};

/// No chain of a unit goes over the end of the text.
pub fn unit_chains_keep_the_end()
    ensures { UnitChainsKeepTheEnd }
{}

/// What is read as a unit in a list that ends is the whole list.
pub fn units_are_whole()
    ensures { UnitsAreWhole }
{}

/// A list spells a unit, or no unit goes on at a token, or it is first too deep at one: one of these, at one token.
pub fn verdicts_are_unique()
    ensures { VerdictsAreUnique }
{}

/// In a list that ends, what is read is exactly the one of these that holds.
pub fn verdicts_are_read()
    ensures { VerdictsAreRead }
{}
