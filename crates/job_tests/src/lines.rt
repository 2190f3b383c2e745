//! Lines and commands worked by hand.

use job_lines::{
    Command, LineKind, Place, Said, Setting, Settings, Size, capitals, command_said, kind_at,
    next_line, program_name, same,
};
use std::alloc::{AllocError, Global};
use std::test::Fail;

/// Texts with their first lines, and what is left behind these.
static LINES: [(&[u8], &[u8], &[u8]); 7] = [
    (b"A", b"A", b""),
    (b"A\n", b"A", b""),
    (b"\nB", b"", b"B"),
    (b"A\r\nB\r", b"A", b"B\r"),
    (b"B\r", b"B\r", b""),
    (b"A\r\r\n\n", b"A\r", b"\n"),
    (b"A\rB\nC", b"A\rB", b"C"),
];

fn begins(text: &[u8], line: &[u8], rest: &[u8]) -> bool {
    match next_line(text) {
        Some((first, behind)) => first == line && behind == rest,
        None => false,
    }
}

#[test]
fn lines_end_at_line_feeds(rt: HostRuntime) -> Result<(), Fail> {
    for (text, line, rest) in &LINES {
        assert!(rt; begins(text, line, rest), "{text:?}");
    }
    assert!(rt; next_line(b"").is_none());
    Ok(())
}

/// Words, and whether a program may be named so.
static NAMES: [(&str, bool); 10] = [
    ("A", true),
    ("Z9", true),
    ("ABCDEFG8", true),
    ("", false),
    ("9A", false),
    ("a", false),
    ("ABCDEFGH9", false),
    ("A'B", false),
    ("A_", false),
    ("STACK=5", false),
];

#[test]
fn names_have_at_most_eight_characters(rt: HostRuntime) -> Result<(), Fail> {
    for (word, is_name) in &NAMES {
        assert!(rt; program_name(word.as_bytes()) == *is_name, "{word}");
    }
    Ok(())
}

fn kind_of(said: &Said<'_>) -> &'static str {
    match said {
        Said::Nothing => "nothing",
        Said::Stray => "stray",
        Said::Late | Said::EndOfText => "late",
        Said::UnitLine(_) => "unit",
        Said::TerminalLine(_) => "typed",
        Said::Wrong => "wrong",
        Said::Command(_) => "command",
    }
}

fn kind_of_command(alloc: Global, words: &[u8]) -> Result<&'static str, AllocError> {
    let capitals = capitals(alloc, words)?;
    match command_said(alloc, &capitals) {
        Ok(said) => Ok(kind_of(&said)),
        Err(error) => Err(error),
    }
}

/// The kind of what a line says.
fn kind_of_line(alloc: Global, place: Place, line: &str) -> Result<&'static str, AllocError> {
    match kind_at(place, line.as_bytes()) {
        LineKind::Plain(said) => Ok(kind_of(&said)),
        LineKind::Words(words) => kind_of_command(alloc, words),
    }
}

/// Lines at their places, and the kinds of what they say.
static SAID: [(Place, &str, &str); 24] = [
    (Place::Start, "!job", "command"),
    (Place::Start, "", "nothing"),
    (Place::Start, "JOB", "stray"),
    (Place::Outside, " \t ", "nothing"),
    (Place::Outside, " !UNIT", "stray"),
    (Place::Outside, "!UNIT \t", "command"),
    (Place::Outside, "!UNIT X", "wrong"),
    (Place::Outside, "! UNIT", "wrong"),
    (Place::Outside, "!!X", "wrong"),
    (Place::Outside, "!Memory 1", "command"),
    (Place::Outside, "!MEMORY 12345678901", "wrong"),
    (
        Place::Outside,
        "!SESSION a Stack=1 print=2 EXTRA=3",
        "command",
    ),
    (Place::Outside, "!SESSION A STACK=1 STACK=1", "wrong"),
    (Place::Outside, "!SESSION A STACK = 1", "wrong"),
    (Place::Outside, "!SESSION A STACK=", "wrong"),
    (Place::InUnit, "", "unit"),
    (Place::InUnit, "!!X", "wrong"),
    (Place::InUnit, "!SESSION A", "command"),
    (Place::InSession, "", "typed"),
    (Place::InSession, "!!", "typed"),
    (Place::InSession, "!", "wrong"),
    (Place::Ended, "!EOJ", "late"),
    (Place::Ended, "\r", "late"),
    (Place::Ended, "\t", "nothing"),
];

#[test]
fn a_line_says_what_its_place_lets_it(rt: HostRuntime) -> Result<(), Fail> {
    for (place, line, wanted) in &SAID {
        assert_eq!(rt; kind_of_line(rt.alloc(), *place, line)?, *wanted, "{line}");
    }
    Ok(())
}

fn has_sizes(said: &Said<'_>) -> bool {
    match said {
        Said::Command(Command::Session(name, sizes)) => {
            *name == b"A".as_slice()
                && sizes.value(Size::Stack) == 64
                && sizes.value(Size::Extra) == 0
                && sizes.value(Size::Print) == 7
                && sizes.fit()
        }
        _ => false,
    }
}

#[test]
fn a_session_says_its_sizes(rt: HostRuntime) -> Result<(), Fail> {
    let said = command_said(rt.alloc(), b"!SESSION A PRINT=7 STACK=64")?;
    assert!(rt; has_sizes(&said));
    Ok(())
}

/// Each setting with its least and its greatest number, and what it is where it is not set.
static SETTINGS: [(Setting, u64, u64, u32); 3] = [
    (Setting::Memory, 1, 1_048_576, 65_536),
    (Setting::Quantum, 1, 10_000, 100),
    (Setting::Turns, 1, 1_000_000, 100_000),
];

fn has_limits(setting: Setting, least: u64, most: u64) -> bool {
    setting.fits(least)
        && setting.fits(most)
        && !setting.fits(0)
        && !setting.fits(most.saturating_add(1))
}

fn can_be_set(settings: &mut Settings, setting: Setting, default: u32) -> bool {
    let is_default = settings.value(setting) == default && settings.get(setting).is_none();
    settings.set(setting, 2);
    is_default && settings.value(setting) == 2
}

#[test]
fn settings_have_limits_and_defaults(rt: HostRuntime) -> Result<(), Fail> {
    let mut settings = Settings::none();
    for (setting, least, most, default) in &SETTINGS {
        assert!(rt; has_limits(*setting, *least, *most), "{setting:?}");
        assert!(rt;
            can_be_set(&mut settings, *setting, *default),
            "{setting:?}"
        );
    }
    assert!(rt; same(b"A", b"A") && !same(b"A", b"AB"));
    Ok(())
}
