//! Laws of runs and rules, each as the contract of a function that does nothing.
ghost use Rattle.spl_meaning.specs.Laws.{EndedRunsStay, PrintsOnlyGrow, LogsOnlyGrow, StepsGoOn, BoundsDoNotMatter, FirstRulesAreBroken, SoundUnitsBreakNone, RuleKindsAreKinds};

/// A run that has ended, or strayed, stays as it is.
pub fn ended_runs_stay()
    ensures { EndedRunsStay }
{}

/// What was printed stays, and more is only printed behind it.
pub fn prints_only_grow()
    ensures { PrintsOnlyGrow }
{}

/// So do the statements begun.
pub fn logs_only_grow()
    ensures { LogsOnlyGrow }
{}

/// A run with one step more is the same with that step left, or goes on from where the run lacked it: by one print at most, by one
/// statement at most, and no end follows a print within one step.
pub fn steps_go_on()
    ensures { StepsGoOn }
{}

/// The bound on calls, jumps and turns does not matter where it is at least the steps that are left.
pub fn bounds_do_not_matter()
    ensures { BoundsDoNotMatter }
{}

/// The first rule that units break is broken at its place, and no other comes before it.
pub fn first_rules_are_broken()
    ensures { FirstRulesAreBroken }
{}

/// Units are sound exactly where there is no first rule that they break.
pub fn sound_units_break_none()
    ensures { SoundUnitsBreakNone }
{}

/// Where an expression breaks no rule, the kind that rules go by is its kind.
pub fn rule_kinds_are_kinds()
    ensures { RuleKindsAreKinds }
{}
