//! Laws of many steps, for callers that reason about runs: no code runs for them.
ghost use Rattle.std.specs.Prelude.{◌≡◌, ◌+◌, false, length};
ghost use Rattle.hp_program.specs.Programs.{segments_of};
ghost use Rattle.hp_session.specs.State.{Machine};
ghost use Rattle.hp_session.specs.Keeping.{Continues};
ghost use Rattle.hp_flat.specs.Step.{after, is_running};

use hp_program::Program;

/// A run that has ended stays as it is, however many steps are left.
pub fn ended_runs_stay(program: &Program, steps: u64)
    ensures { (m : Machine) → is_running m.ending ≡ false → after (segments_of program.now) steps m ≡ m }
{}

/// So many steps and then so many more are all of them.
pub fn steps_add_up(program: &Program, first: u64, more: u64)
    ensures { (m : Machine) → after (segments_of program.now) (first + more) m ≡ after (segments_of program.now) more (after (segments_of program.now) first m) }
{}

/// A run goes on from where it began: it keeps what each step keeps.
pub fn runs_continue(program: &Program, steps: u64)
    ensures { (m : Machine) → Continues (length (segments_of program.now)) m (after (segments_of program.now) steps m) }
{}
