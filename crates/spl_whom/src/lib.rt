//! Calls of names within expressions, over their arguments: whom a name calls, and that the code of the call gives its result.
#![tactic(auto)]

mod laws;

pub use laws::named_calls_simulate;
