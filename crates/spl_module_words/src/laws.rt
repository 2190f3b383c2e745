//! The law of this crate, as the contract of a function that does nothing.
ghost use Rattle.spl_module_words.specs.Words.{ModulesHaveFewWords};

/// The modules of a program that breaks no rule and passes no limit have in each segment at most as many words as what stands
/// there weighs: the bound of the segment less its table.
pub fn modules_have_few_words()
    ensures { ModulesHaveFewWords }
{}
