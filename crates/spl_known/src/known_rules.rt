//! Rules and limits of known programs, each set as the contract of a function that does nothing. The values are of other programs or
//! worked by hand.
ghost use Rattle.spl_known.specs.Programs.{AllFaultsSo, AllRight, AllBoundsSo};
ghost use Rattle.spl_known.specs.BoundRuns.{bound_runs};
ghost use Rattle.spl_known.specs.ArithmeticRuns.{arithmetic_runs};
ghost use Rattle.spl_known.specs.ReferenceRuns.{reference_runs};
ghost use Rattle.spl_known.specs.StatementRuns.{statement_runs};
ghost use Rattle.spl_known.specs.CallRuns.{call_runs};
ghost use Rattle.spl_known.specs.EffectRuns.{effect_runs};
ghost use Rattle.spl_known.specs.FaultRuns.{fault_runs};
ghost use Rattle.spl_known.specs.LimitRuns.{AllLimitsSo, limit_runs, AllCountsSo, count_runs, AllReachSo, reach_runs};

/// Each of these programs first breaks this rule, or passes this limit, at this place.
pub fn faults_are_found()
    ensures { AllFaultsSo fault_runs }
{}

/// The programs whose runs are known break no rule and pass no limit.
pub fn known_programs_are_right()
    ensures arithmetic { AllRight arithmetic_runs }
    ensures references { AllRight reference_runs }
    ensures statements { AllRight statement_runs }
    ensures calls { AllRight call_runs }
    ensures effects { AllRight effect_runs }
{}

/// Where counts pass their limits.
pub fn limits_are_counted()
    ensures units { AllLimitsSo limit_runs }
    ensures counts { AllCountsSo count_runs }
    ensures reach { AllReachSo reach_runs }
{}

/// How many words the segments of known programs may have.
pub fn bounds_are_counted()
    ensures { AllBoundsSo bound_runs }
{}
