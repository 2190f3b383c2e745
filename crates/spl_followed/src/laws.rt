//! The laws of this crate, as the contracts of functions that do nothing but call those whose laws they stand on.
ghost use Rattle.spl_followed.specs.Mains.{SessionsOpenAsRuns, MainBodiesFollow, FramedProgramsFollow};
ghost use Rattle.spl_followed.specs.Laws.{MachineFollowsSource, SourceFollowsMachine, LogsAgree, FollowedProgramsCarry};

use spl_follow::{openings_have_their_words, words_stay_words};

/// After each number of the machine's steps some number of the source's leads to the same point, unless the source strays.
pub fn machine_follows_source()
    ensures { MachineFollowsSource }
{}

/// After each number of the source's steps some number of the machine's leads to the same point, unless the source strays.
pub fn source_follows_machine()
    ensures { SourceFollowsMachine }
{}

/// The starts that a session meets are the statements that its run begins.
pub fn logs_agree()
    ensures { LogsAgree }
{}

/// A program within its bounds whose sessions all follow the run of its units carries them.
pub fn followed_programs_carry()
    ensures { FollowedProgramsCarry }
{}

/// A session opens as its run does.
pub fn sessions_open_as_runs()
    ensures { SessionsOpenAsRuns }
{
    words_stay_words();
    openings_have_their_words();
}

/// Where the statements of a main body are followed, the run of its units is.
pub fn main_bodies_follow()
    ensures run { MainBodiesFollow }
    ensures program { FramedProgramsFollow }
{
    sessions_open_as_runs();
}
