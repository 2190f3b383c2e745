//! The laws of this crate, as the contracts of functions that do nothing.
ghost use Rattle.spl_jumps.specs.Laws.{JumpsPerform, LabelledPerform, UnreachedPerform, UnlabelledPerformAt, LabelledPerformAt};
ghost use Rattle.spl_jumps.specs.Laws.{NothingPerformsFrom, ListsPerformFrom, ListsLand, BlocksPerform, NoArmChoosesAt, ArmsChooseAt, ArmsLand};

/// GO TO and RETURN.
pub fn jumps_perform()
    ensures { JumpsPerform }
{}

/// A statement behind its label, to which a jump may lead or none does; and from its labels on.
pub fn labelled_statements_perform()
    ensures marked { LabelledPerform }
    ensures unmarked { UnreachedPerform }

    ensures none { UnlabelledPerformAt }
    ensures at { LabelledPerformAt }
{}

/// A list from its labels on, one that takes the jumps to its labels, and a block.
pub fn lists_land()
    ensures none { NothingPerformsFrom }
    ensures more { ListsPerformFrom }

    ensures lands { ListsLand }
    ensures block { BlocksPerform }
{}

/// The arms of a CASE from their labels on, and as they take the jumps to these.
pub fn arms_land()
    ensures none { NoArmChoosesAt }
    ensures more { ArmsChooseAt }

    ensures lands { ArmsLand }
{}
