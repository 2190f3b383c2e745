//! What a list of tokens comes to as an expression or a condition: laws, each as the contract of a function that
//! does nothing.
#![tactic(auto)]

ghost use Rattle.spl_verdicts.specs.PartVerdicts.{PartVerdictsAreRead, PartVerdictsAreUnique, WholePartsAreNotRefused};

/// Where a part may end, the next token is not refused.
pub fn whole_parts_are_not_refused()
    ensures { WholePartsAreNotRefused }
{}

/// A list begins with a part that goes no further, or none goes on at a token, or it is first too deep at one: one
/// of these,
/// at one token.
pub fn part_verdicts_are_unique()
    ensures { PartVerdictsAreUnique }
{}

/// In a list that ends, what is read is exactly the one of these that holds.
pub fn part_verdicts_are_read()
    ensures { PartVerdictsAreRead }
{}
