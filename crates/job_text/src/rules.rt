//! The rules of job texts: each is one test of a line, over what the lines before it say.
ghost use Rattle.std.specs.Prelude.{◌≡◌, ◌≤◌, ◌==◌, ◌+◌, map, length, not};
ghost use Rattle.job_text.specs.Rules as rule;
ghost use Rattle.job_lines.specs.Views.{said_value};
ghost use Rattle.job_text.specs.Views.{text_value};

use crate::job::Text;
use crate::parts::program_number;
use crate::reading::Reading;
use job_lines::{Command, Place, Said, Setting, program_name};

/// How many units the last program has.
fn last_units(programs: &[Text]) -> usize
    ensures { result ≡ length (rule.last_units (map text_value programs.now)) }
{
    match programs.last() {
        None => 0,
        Some(program) => program.units.len(),
    }
}

impl Reading {
    ghost use Rattle.job_text.specs.Views.{state_of};

    /// The text has begun.
    fn begun(&self) -> bool
        ensures { result ≡ not (rule.is_start self.now.place) }
    {
        !matches!(self.place, Place::Start)
    }

    /// The last program has a unit, if there is a program.
    fn unit_given(&self) -> bool
        ensures { result ≡ rule.is_given (map text_value self.now.programs.items) }
    {
        self.programs.is_empty() || last_units(&self.programs) > 0
    }

    /// Rule 1: line 1 is `!JOB`.
    fn opens(&self, said: &Said<'_>) -> bool
        ensures { result ≡ rule.opens (state_of self.now) (said_value said.now) }
    {
        match said {
            Said::Command(Command::Job) => true,
            _ => self.begun(),
        }
    }

    /// Rule 2: a command is one, and no option stands twice.
    fn understood(&self, said: &Said<'_>) -> bool
        ensures { result ≡ rule.is_understood (state_of self.now) (said_value said.now) }
    {
        !matches!(said, Said::Wrong)
    }

    /// Rule 3: a number is within its limits.
    fn in_limits(&self, said: &Said<'_>) -> bool
        ensures { result ≡ rule.is_in_limits (state_of self.now) (said_value said.now) }
    {
        match said {
            Said::Command(Command::Setting(setting, number)) => setting.fits(*number),
            Said::Command(Command::Session(_, sizes)) => sizes.fit(),
            _ => true,
        }
    }

    /// Rule 4: a setting stands once, and before the first program; `!JOB` stands once.
    fn in_time(&self, said: &Said<'_>) -> bool
        ensures { result ≡ rule.is_in_time (state_of self.now) (said_value said.now) }
    {
        match said {
            Said::Command(Command::Job) => !self.begun(),
            Said::Command(Command::Setting(setting, _)) => {
                self.settings.get(*setting).is_none() && self.programs.is_empty()
            }
            Said::Command(Command::Statistics) => !self.stats && self.programs.is_empty(),
            _ => true,
        }
    }

    /// Rule 5: a program's name is one, and not taken.
    fn well_named(&self, said: &Said<'_>) -> bool
        ensures { result ≡ rule.is_well_named (state_of self.now) (said_value said.now) }
    {
        match said {
            Said::Command(Command::Program(name)) => {
                program_name(name) && program_number(&self.programs, name).is_none()
            }
            _ => true,
        }
    }

    /// Rule 6: at most 16 programs, and 32 units of each.
    fn has_room(&self, said: &Said<'_>) -> bool
        ensures { result ≡ rule.has_room (state_of self.now) (said_value said.now) }
    {
        match said {
            Said::Command(Command::Program(_)) => self.programs.len() < 16,
            Said::Command(Command::Unit) => last_units(&self.programs) < 32,
            _ => true,
        }
    }

    /// Rule 7: a unit is one of a program, and any other command behind a program comes behind a unit of it.
    fn has_units(&self, said: &Said<'_>) -> bool
        ensures { result ≡ rule.has_units (state_of self.now) (said_value said.now) }
    {
        match said {
            Said::Command(Command::Unit) => !self.programs.is_empty(),
            Said::Command(_) | Said::Wrong => self.unit_given(),
            _ => true,
        }
    }

    /// Rule 8: a session names a program of the job.
    fn names_program(&self, said: &Said<'_>) -> bool
        ensures { result ≡ rule.names_program (state_of self.now) (said_value said.now) }
    {
        match said {
            Said::Command(Command::Session(name, _)) => {
                program_number(&self.programs, name).is_some()
            }
            _ => true,
        }
    }

    /// Rule 9: at most 16 sessions.
    fn has_seat(&self, said: &Said<'_>) -> bool
        ensures { result ≡ rule.has_seat (state_of self.now) (said_value said.now) }
    {
        match said {
            Said::Command(Command::Session(_, _)) => self.seats.len() < 16,
            _ => true,
        }
    }

    /// Rule 10: programs and units come before sessions, and text stands in units and sessions.
    fn in_order(&self, said: &Said<'_>) -> bool
        ensures { result ≡ rule.is_in_order (state_of self.now) (said_value said.now) }
    {
        match said {
            Said::Command(Command::Program(_) | Command::Unit) => self.seats.is_empty(),
            Said::Stray => false,
            _ => true,
        }
    }

    /// Rule 11: at the end a job to be run has a session, and one to be prepared one program and no session.
    fn fits_its_use(&self, prep: bool, said: &Said<'_>) -> bool
        ensures { result ≡ rule.fits_its_use prep (state_of self.now) (said_value said.now) }
    {
        match said {
            Said::Command(Command::EndOfJob) => {
                if prep {
                    self.programs.len() == 1 && self.seats.is_empty()
                } else {
                    !self.seats.is_empty()
                }
            }
            _ => true,
        }
    }

    /// Rule 12: at the end the turns times the quantum are at most 50,000,000.
    fn short(&self, said: &Said<'_>) -> bool
        ensures { result ≡ rule.is_short (state_of self.now) (said_value said.now) }
    {
        match said {
            Said::Command(Command::EndOfJob) => {
                let turns = self.settings.value(Setting::Turns) as u64;
                let quantum = self.settings.value(Setting::Quantum) as u64;
                turns * quantum <= 50_000_000
            }
            _ => true,
        }
    }

    /// Rule 13: the text has the end of a job, and only blanks behind it.
    fn closes(&self, said: &Said<'_>) -> bool
        ensures { result ≡ rule.closes (state_of self.now) (said_value said.now) }
    {
        match said {
            Said::Late => false,
            Said::EndOfText => matches!(self.place, Place::Ended),
            _ => true,
        }
    }

    /// Whether each rule is kept, in order of number.
    fn kept(&self, prep: bool, said: &Said<'_>) -> [bool; 13]
        ensures { result ≡ rule.kept prep (state_of self.now) (said_value said.now) }
    {
        [
            self.opens(said),
            self.understood(said),
            self.in_limits(said),
            self.in_time(said),
            self.well_named(said),
            self.has_room(said),
            self.has_units(said),
            self.names_program(said),
            self.has_seat(said),
            self.in_order(said),
            self.fits_its_use(prep, said),
            self.short(said),
            self.closes(said),
        ]
    }

    /// The least rule that a line breaks.
    #[tactic(auto, unfolding(crate::specs::Rules::broken))]
    pub(crate) fn broken(&self, prep: bool, said: &Said<'_>) -> Option<u8>
        ensures { result ≡ rule.broken prep (state_of self.now) (said_value said.now) }
    {
        first_failing(&self.kept(prep, said))
    }
}

/// The number of the first test that fails, counted from 1.
#[tactic(auto, using(crate::proofs::RuleLemmas::failing_turns))]
fn first_failing(kept: &[bool]) -> Option<u8>
    requires { length kept.now ≤ 13 }
    ensures { result ≡ rule.first_failing 1 kept.now }
{
    for (i, test) in kept.iter().enumerate() {
        if !*test {
            return Some(i as u8 + 1);
        }
    }
    None
}
