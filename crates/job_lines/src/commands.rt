//! What a command says.
ghost use Rattle.std.specs.Prelude.{◌≡◌, map, option_map};
ghost use Rattle.job_lines.specs.Commands as table;
ghost use Rattle.job_lines.specs.Views.{command_value};

use crate::lines::same;
use crate::numbers::number;
use crate::settings::Setting;
use crate::sizes::Sizes;

/// A command: what the words of its line say. A name is any word, and numbers were not held against their limits yet.
#[derive(Clone, Copy, Debug)]
pub enum Command<'a> {
    /// The first line of a job.
    Job,
    /// A setting, with its number.
    Setting(Setting, u64),
    /// Statistics are wanted.
    Statistics,
    /// Begins a program of this name.
    Program(&'a [u8]),
    /// Begins a unit.
    Unit,
    /// Begins a session of the program of this name, with the sizes that its options give.
    Session(&'a [u8], Sizes),
    /// The end of the job.
    EndOfJob,
}

/// A command word that stands alone.
fn bare<'a>(command: Command<'a>, words: &[&'a [u8]]) -> Option<Command<'a>>
    ensures { option_map command_value result ≡ table.bare (command_value command.entry) (map (λ w. w.now) words.now) }
{
    match words {
        [] => Some(command),
        _ => None,
    }
}

/// One with a number.
fn with_number<'a>(setting: Setting, words: &[&'a [u8]]) -> Option<Command<'a>>
    ensures { option_map command_value result ≡ table.with_number setting (map (λ w. w.now) words.now) }
{
    match words {
        [word] => match number(word) {
            None => None,
            Some(n) => Some(Command::Setting(setting, n)),
        },
        _ => None,
    }
}

/// One with a name.
fn with_name<'a>(words: &[&'a [u8]]) -> Option<Command<'a>>
    ensures { option_map command_value result ≡ table.with_name (map (λ w. w.now) words.now) }
{
    match words {
        [name] => Some(Command::Program(name)),
        _ => None,
    }
}

/// One with a name and options.
fn with_options<'a>(words: &[&'a [u8]]) -> Option<Command<'a>>
    ensures { option_map command_value result ≡ table.with_options (map (λ w. w.now) words.now) }
{
    match words {
        [] => None,
        [name, options @ ..] => match Sizes::none().with_options(options) {
            None => None,
            Some(sizes) => Some(Command::Session(name, sizes)),
        },
    }
}

/// The command that a word and those behind it are: the table of command words.
fn command_by<'a>(word: &[u8], words: &[&'a [u8]]) -> Option<Command<'a>>
    ensures { option_map command_value result ≡ table.command_by table.command_words word.now (map (λ w. w.now) words.now) }
{
    if same(word, b"!JOB") {
        bare(Command::Job, words)
    } else if same(word, b"!MEMORY") {
        with_number(Setting::Memory, words)
    } else if same(word, b"!QUANTUM") {
        with_number(Setting::Quantum, words)
    } else if same(word, b"!TURNS") {
        with_number(Setting::Turns, words)
    } else if same(word, b"!STATS") {
        bare(Command::Statistics, words)
    } else if same(word, b"!PROGRAM") {
        with_name(words)
    } else if same(word, b"!UNIT") {
        bare(Command::Unit, words)
    } else if same(word, b"!SESSION") {
        with_options(words)
    } else if same(word, b"!EOJ") {
        bare(Command::EndOfJob, words)
    } else {
        None
    }
}

/// The command of these words, in capitals.
#[tactic(auto, unfolding(crate::specs::Commands::command_of))]
pub(crate) fn command_of<'a>(words: &[&'a [u8]]) -> Option<Command<'a>>
    ensures { option_map command_value result ≡ table.command_of (map (λ w. w.now) words.now) }
{
    match words {
        [] => None,
        [word, rest @ ..] => command_by(word, rest),
    }
}
