//! Tests of the rules of the parser on lists of tokens worked by hand: each rule of expressions, statements, lists and units. They stand
//! beside the crates that they test, since a crate with tests is proved a second time with them.
#![tactic(auto)]

#[cfg(test)]
mod expressions;
#[cfg(test)]
mod items;
#[cfg(test)]
mod places;
#[cfg(test)]
mod printed;
#[cfg(test)]
mod statements;
#[cfg(test)]
mod tokens;
#[cfg(test)]
mod units;
#[cfg(test)]
mod verdicts;
