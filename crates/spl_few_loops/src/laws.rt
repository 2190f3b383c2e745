//! The laws of this crate, as the contracts of functions that do nothing.
ghost use Rattle.spl_few_loops.specs.Loops.{LoopsAreFors, FewLoopsNest};

/// The loops that words wait for are the FORs.
pub fn loops_are_fors()
    ensures { LoopsAreFors }
{}

/// In units that tokens spell at most 255 words wait for the loops around a statement, in each body.
pub fn few_loops_nest()
    ensures { FewLoopsNest }
{}
