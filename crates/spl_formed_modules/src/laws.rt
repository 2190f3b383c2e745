//! The laws of this crate, as the contracts of functions that do nothing.
ghost use Rattle.spl_formed_modules.specs.Laws.{ModulesAreFormed, ModulesAreFew};

/// Each module of units has words, its entries and its main body stand at them, and of the system it wants intrinsics alone.
pub fn modules_are_formed()
    ensures { ModulesAreFormed }
{}

/// The modules of units that tokens spell, with what they define and want, are fewer than 2 to the power 32.
pub fn modules_are_few()
    ensures { ModulesAreFew }
{}
