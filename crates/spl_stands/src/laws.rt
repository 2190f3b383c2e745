//! The laws of this crate, as the contracts of functions that do nothing.
ghost use Rattle.spl_stands.specs.Laws.{WordsStand, ModulesStand};

/// Words of a segment that stand for pieces, by their instructions, stand for them by what the machine does there.
pub fn words_stand()
    ensures { WordsStand }
{}

/// So do the words of a module, wherever it lies in a program.
pub fn modules_stand()
    ensures { ModulesStand }
{}
