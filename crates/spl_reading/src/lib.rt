//! Reading by the grammar: what each rule makes of a list of tokens, as definitions.
#![tactic(auto)]
