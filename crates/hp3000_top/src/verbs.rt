//! The words of the command line.
ghost use Rattle.std.specs.Prelude.{◌≡◌, map, string_bytes};
ghost use Rattle.hp3000_top.specs.Verbs.{named, job_number, numbered, asked};

use job_lines::number;

/// What the words of the command line ask for.
#[derive(Clone, Copy, Debug, PartialEq, Eq)]
pub enum Verb {
    /// The report of a job.
    Run,
    /// The program file of a job's only program.
    Prep,
    /// The listing of a program file.
    List,
    /// The summary of the run of the generated job with this number.
    Gen(u16),
}

/// The verb of a word that stands alone, if it is one.
fn named(word: &str) -> Option<Verb>
    ensures { result ≡ named word.now }
{
    if word == "run" {
        Some(Verb::Run)
    } else if word == "prep" {
        Some(Verb::Prep)
    } else if word == "list" {
        Some(Verb::List)
    } else {
        None
    }
}

/// The number of a generated job, if a word is one: 1 to 5 decimal digits, at most 65,535.
#[tactic(auto, unfolding(crate::specs::Verbs::job_number))]
fn job_number(word: &[u8]) -> Option<u16>
    ensures { result ≡ job_number word.now }
{
    if word.len() > 5 {
        return None;
    }
    match number(word) {
        Some(number) if number <= 65_535 => Some(number as u16),
        _ => None,
    }
}

/// What a word with a number behind it asks for, if it is `gen`.
fn numbered(word: &str, number: &str) -> Option<Verb>
    ensures { result ≡ numbered word.now number.now }
{
    if word != "gen" {
        return None;
    }
    match job_number(number.as_bytes()) {
        Some(number) => Some(Verb::Gen(number)),
        None => None,
    }
}

/// What the words ask for, if they are those of a verb.
pub fn verb_of(words: &[String]) -> Option<Verb>
    ensures { result ≡ asked (map (λ w. string_bytes w) words.now) }
{
    match words {
        [word] => named(word.as_str()),
        [word, number] => numbered(word.as_str(), number.as_str()),
        _ => None,
    }
}
