//! What a line says at its place.
ghost use Rattle.std.specs.Prelude.{◌≡◌, IfOk, option_map, if◌then◌else◌};
ghost use Rattle.job_lines.specs.Says as say;
ghost use Rattle.job_lines.specs.Lines.{is_blank_line, words};
ghost use Rattle.job_lines.specs.Commands.{command_of};
ghost use Rattle.job_lines.specs.Views.{command_value, said_value, kind_said};

use crate::commands::{Command, command_of};
use crate::lines::{blank_line, words};
use crate::place::Place;
use std::alloc::{AllocError, Global};

/// What a line says.
#[derive(Clone, Copy, Debug)]
pub enum Said<'a> {
    /// A line of blanks that means nothing.
    Nothing,
    /// Text outside units and sessions.
    Stray,
    /// A line that is not blank behind the end of the job.
    Late,
    /// A line of a unit's text.
    UnitLine(&'a [u8]),
    /// A line that is typed at a terminal.
    TerminalLine(&'a [u8]),
    /// A command.
    Command(Command<'a>),
    /// A line that begins as a command and is none.
    Wrong,
    /// No line more.
    EndOfText,
}

/// The line begins with `!`.
fn command_begins(line: &[u8]) -> bool
    ensures { result ≡ say.is_command line.now }
{
    match line {
        [b'!', ..] => true,
        _ => false,
    }
}

/// What a command says, or a line that is none.
fn said_by(command: Option<Command<'_>>) -> Said<'_>
    ensures { said_value result ≡ say.said_by_words (option_map command_value command.entry) }
{
    match command {
        None => Said::Wrong,
        Some(command) => Said::Command(command),
    }
}

/// What the words of a line in capitals say. Only memory may be wanting.
pub fn command_said<'a>(alloc: Global, capitals: &'a [u8]) -> Result<Said<'a>, AllocError>
    ensures { IfOk result (λ said. said_value said ≡ say.said_by_words (command_of (words capitals.entry.now))) }
{
    let words = words(alloc, capitals)?;
    Ok(said_by(command_of(&words)))
}

/// A line at its place, before the words of a command are looked at.
#[derive(Clone, Copy, Debug)]
pub enum LineKind<'a> {
    /// It says what its words do, in capitals.
    Words(&'a [u8]),
    /// It says this as it stands.
    Plain(Said<'a>),
}

/// A line outside units and sessions.
fn outside(line: &[u8]) -> LineKind<'_>
    ensures { kind_said result ≡ (if say.is_command line.now then say.command_said line.now else (if is_blank_line line.now then say.nothing else say.stray)) }
{
    if command_begins(line) {
        LineKind::Words(line)
    } else if blank_line(line) {
        LineKind::Plain(Said::Nothing)
    } else {
        LineKind::Plain(Said::Stray)
    }
}

/// A line of a session.
fn in_session(line: &[u8]) -> LineKind<'_>
    ensures { kind_said result ≡ say.session_said line.now }
{
    match line {
        [b'!', rest @ ..] => {
            if command_begins(rest) {
                LineKind::Plain(Said::TerminalLine(rest))
            } else {
                LineKind::Words(line)
            }
        }
        _ => LineKind::Plain(Said::TerminalLine(line)),
    }
}

/// A line at its place.
#[tactic(auto, unfolding(crate::specs::Says::said_at))]
pub fn kind_at(place: Place, line: &[u8]) -> LineKind<'_>
    ensures { kind_said result ≡ say.said_at place line.entry.now }
{
    match place {
        Place::Start | Place::Outside => outside(line),
        Place::InUnit => {
            if command_begins(line) {
                LineKind::Words(line)
            } else {
                LineKind::Plain(Said::UnitLine(line))
            }
        }
        Place::InSession => in_session(line),
        Place::Ended => {
            if blank_line(line) {
                LineKind::Plain(Said::Nothing)
            } else {
                LineKind::Plain(Said::Late)
            }
        }
    }
}
