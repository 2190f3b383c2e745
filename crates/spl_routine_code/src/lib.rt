//! What it means that whole bodies were appended to the code of their module, as definitions, and the lemmas of it.
#![tactic(auto)]
