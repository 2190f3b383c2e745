//! What a line that keeps the rules adds to what is said.
ghost use Rattle.std.specs.Prelude.{◌≡◌, ◌<◌, length, OnOk, true};
ghost use Rattle.job_lines.specs.Commands as command;
ghost use Rattle.job_text.specs.States as state;
ghost use Rattle.job_lines.specs.Names.{is_program_name};
ghost use Rattle.job_lines.specs.Sizes.{sizes_fit};
ghost use Rattle.job_text.specs.Rules.{is_in_limits, is_well_named, has_room};
ghost use Rattle.job_lines.specs.Says as say;
ghost use Rattle.job_lines.specs.Views.{command_value, said_value};

use crate::job::Job;
use crate::parts::{
    append_terminal_line, append_unit_line, begin_unit, new_program, opened, program_number,
};
use crate::reading::Reading;
use job_lines::{Command, Place, Said, Setting, Settings, Sizes};
use std::alloc::{AllocError, Global};

impl Reading {
    ghost use Rattle.job_text.specs.Views.{state_of, job_value};
    ghost use Rattle.job_text.specs.Jobs.{job_of};

    /// Before the first line.
    pub(crate) fn start(alloc: Global) -> Reading
        ensures { state_of result ≡ state.start }
    {
        Reading {
            place: Place::Start,
            settings: Settings::none(),
            stats: false,
            programs: Vec::new(alloc),
            seats: Vec::new(alloc),
        }
    }

    /// The job that all lines say.
    pub(crate) fn into_job(self) -> Job
        ensures { job_value result ≡ job_of (state_of self) }
    {
        Job {
            memory: self.settings.value(Setting::Memory),
            quantum: self.settings.value(Setting::Quantum),
            turns: self.settings.value(Setting::Turns),
            stats: self.stats,
            programs: self.programs,
            seats: self.seats,
        }
    }

    /// Begins a program.
    fn begin_program(&mut self, alloc: Global, name: &[u8]) -> Result<(), AllocError>
        requires named { is_program_name name.now ≡ true }
        requires room { length self.old.programs.items < 16 }
        ensures { OnOk result (state_of self.new ≡ state.after_command (command.program name.now) (state_of self.old)) }
    {
        self.programs.push(new_program(alloc, name))?;
        self.place = Place::Outside;
        Ok(())
    }

    /// Begins a session.
    fn begin_session(&mut self, alloc: Global, name: &[u8], sizes: Sizes) -> Result<(), AllocError>
        requires { sizes_fit sizes ≡ true }
        ensures { OnOk result (state_of self.new ≡ state.after_command (command.session name.now sizes) (state_of self.old)) }
    {
        let program = program_number(&self.programs, name).unwrap_or(0) as u8;
        self.seats.push(opened(alloc, program, sizes))?;
        self.place = Place::InSession;
        Ok(())
    }

    /// Takes a command that keeps the rules.
    fn take_command(&mut self, alloc: Global, said: &Command<'_>) -> Result<(), AllocError>
        requires limits { is_in_limits (state_of self.old) (say.command (command_value said.now)) ≡ true }
        requires named { is_well_named (state_of self.old) (say.command (command_value said.now)) ≡ true }
        requires room { has_room (state_of self.old) (say.command (command_value said.now)) ≡ true }
        ensures { OnOk result (state_of self.new ≡ state.after_command (command_value said.now) (state_of self.old)) }
    {
        match said {
            Command::Job => self.place = Place::Outside,
            Command::Setting(setting, number) => self.settings.set(*setting, *number as u32),
            Command::Statistics => self.stats = true,
            Command::Program(name) => self.begin_program(alloc, name)?,
            Command::Unit => {
                begin_unit(alloc, &mut self.programs)?;
                self.place = Place::InUnit;
            }
            Command::Session(name, sizes) => self.begin_session(alloc, name, *sizes)?,
            Command::EndOfJob => self.place = Place::Ended,
        }
        Ok(())
    }

    /// Takes a line that keeps the rules.
    #[tactic(auto, unfolding(crate::specs::States::after))]
    pub(crate) fn take(&mut self, alloc: Global, said: &Said<'_>) -> Result<(), AllocError>
        requires limits { is_in_limits (state_of self.old) (said_value said.now) ≡ true }
        requires named { is_well_named (state_of self.old) (said_value said.now) ≡ true }
        requires room { has_room (state_of self.old) (said_value said.now) ≡ true }
        ensures { OnOk result (state_of self.new ≡ state.after (said_value said.now) (state_of self.old)) }
    {
        match said {
            Said::UnitLine(line) => append_unit_line(&mut self.programs, line),
            Said::TerminalLine(line) => append_terminal_line(alloc, &mut self.seats, line),
            Said::Command(command) => self.take_command(alloc, command),
            Said::Nothing | Said::Stray | Said::Late | Said::Wrong | Said::EndOfText => Ok(()),
        }
    }
}
