//! How many words the modules of units have: in each segment at most as many as their trees weigh there.
#![tactic(auto)]

mod laws;

pub use laws::modules_have_few_words;
