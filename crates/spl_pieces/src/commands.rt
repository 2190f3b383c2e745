//! Command lines: what stands behind their `$`.
ghost use Rattle.std.specs.Prelude.{◌≡◌, ◌≤◌, length, map, option_map, option_and_then, nat_lt, filter, IfOk, IfSome};
ghost use Rattle.std.specs.List.{slice_split, list_all};
ghost use Rattle.spl_cuts.specs.Bytes.{is_blank, is_digit, is_name_byte, is_letter, begins};
ghost use Rattle.spl_cuts.specs.Commands as ct;
ghost use Rattle.spl_pieces.specs.PieceViews.{setting_of};

use crate::bytes::{blank, capitals, digit, is_word, letter, name_byte, name_length};
use spl_tree::Name;
use std::alloc::{AllocError, Global};

/// What an option of `$CONTROL` says; most have no effect.
#[derive(Debug, PartialEq, Eq, Drop)]
pub enum Setting {
    /// The tokens that follow belong to this segment.
    Segment(Name),
    /// The unit is a subprogram.
    Subprogram,
    Other,
}

fn first_is_letter(bytes: &[u8]) -> bool
    ensures { result ≡ begins is_letter bytes.now }
{
    match bytes.first() {
        None => false,
        Some(b) => letter(*b),
    }
}

fn first_is_digit(bytes: &[u8]) -> bool
    ensures { result ≡ begins is_digit bytes.now }
{
    match bytes.first() {
        None => false,
        Some(b) => digit(*b),
    }
}

fn all_name_bytes(bytes: &[u8]) -> bool
    ensures { result ≡ list_all is_name_byte bytes.now }
{
    bytes.iter().all(|b| name_byte(*b))
}

fn all_digits(bytes: &[u8]) -> bool
    ensures { result ≡ list_all is_digit bytes.now }
{
    bytes.iter().all(|b| digit(*b))
}

/// A name: a letter, then letters, digits and apostrophes, at most 15 characters in all.
fn is_name(word: &[u8]) -> bool
    ensures value { result ≡ ct.is_name word.now }
{
    first_is_letter(word) && all_name_bytes(word) && word.len() <= 15
}

fn is_number(word: &[u8]) -> bool
    ensures { result ≡ ct.is_number word.now }
{
    first_is_digit(word) && all_digits(word)
}

/// What stands between the blanks of a text.
fn parts<'a>(alloc: Global, text: &'a [u8]) -> Result<Vec<&'a [u8]>, AllocError>
    ensures { IfOk result (λ v. map (λ w. w.now) v.items ≡ slice_split is_blank text.entry.now) }
{
    text.split(|b| blank(*b)).collect(alloc)
}

/// The words of a text.
#[tactic(auto, using(crate::proofs::CommandLemmas::word_steps))]
fn words<'a>(alloc: Global, text: &'a [u8]) -> Result<Vec<&'a [u8]>, AllocError>
    ensures { IfOk result (λ v. map (λ w. w.now) v.items ≡ ct.words text.entry.now) }
{
    let parts = parts(alloc, text)?;
    let mut words = Vec::new(alloc);
    for part in &parts {
        if !part.is_empty() {
            words.push(*part)?;
        }
    }
    Ok(words)
}

/// The only word of a text.
fn only<'a>(alloc: Global, text: &'a [u8]) -> Result<Option<&'a [u8]>, AllocError>
    ensures { IfOk result (λ o. option_map (λ w. w.now) o ≡ ct.only (ct.words text.entry.now)) }
{
    let words = words(alloc, text)?;
    match words.as_slice() {
        [word] => Ok(Some(*word)),
        _ => Ok(None),
    }
}

/// The option that is a name alone.
fn plain(name: &[u8]) -> Option<Setting>
    ensures { option_map setting_of result ≡ ct.plain name.now }
{
    if !is_name(name) {
        None
    } else if is_word(name, b"SUBPROGRAM") {
        Some(Setting::Subprogram)
    } else {
        Some(Setting::Other)
    }
}

/// The option that is a name with a name or number as its value.
fn valued(name: &[u8], value: &[u8]) -> Option<Setting>
    ensures { option_map setting_of result ≡ ct.valued name.now value.now }
{
    if !is_name(name) || !(is_name(value) || is_number(value)) {
        None
    } else if is_word(name, b"SEGMENT") && is_name(value) {
        Some(Setting::Segment(Name {
            text: capitals(value),
        }))
    } else {
        Some(Setting::Other)
    }
}

/// The sides of an option's `=`.
fn sides<'a>(alloc: Global, text: &'a [u8]) -> Result<Vec<&'a [u8]>, AllocError>
    ensures { IfOk result (λ v. map (λ w. w.now) v.items ≡ slice_split ct.is_equals text.entry.now) }
{
    text.split(|b| *b == b'=').collect(alloc)
}

/// The option with these sides of its `=`.
#[tactic(auto, unfolding(spl_cuts::specs::Commands::setting))]
fn of_sides(alloc: Global, sides: &[&[u8]]) -> Result<Option<Setting>, AllocError>
    ensures { IfOk result (λ o. option_map setting_of o ≡ ct.setting (map (λ side. ct.only (ct.words side.now)) sides.now)) }
{
    match sides {
        [name] => match only(alloc, name)? {
            None => Ok(None),
            Some(name) => Ok(plain(name)),
        },
        [name, value] => match (only(alloc, name)?, only(alloc, value)?) {
            (Some(name), Some(value)) => Ok(valued(name, value)),
            _ => Ok(None),
        },
        _ => Ok(None),
    }
}

/// The option that stands between two commas.
#[tactic(auto, unfolding(spl_cuts::specs::Commands::option))]
fn option(alloc: Global, text: &[u8]) -> Result<Option<Setting>, AllocError>
    ensures { IfOk result (λ o. option_map setting_of o ≡ ct.option text.now) }
{
    let sides = sides(alloc, text)?;
    of_sides(alloc, &sides)
}

/// What stands between the commas of a text.
fn listed<'a>(alloc: Global, text: &'a [u8]) -> Result<Vec<&'a [u8]>, AllocError>
    ensures { IfOk result (λ v. map (λ w. w.now) v.items ≡ slice_split ct.is_comma text.entry.now) }
{
    text.split(|b| *b == b',').collect(alloc)
}

/// All options, if each is one.
#[tactic(auto, using(crate::proofs::CommandLemmas::option_steps))]
fn options(alloc: Global, text: &[u8]) -> Result<Option<Vec<Setting>>, AllocError>
    ensures { IfOk result (λ o. option_map (λ v. map setting_of v.items) o ≡ ct.options (slice_split ct.is_comma text.now)) }
{
    let parts = listed(alloc, text)?;
    let mut settings = Vec::new(alloc);
    for part in &parts {
        match option(alloc, part)? {
            None => return Ok(None),
            Some(setting) => settings.push(setting)?,
        }
    }
    Ok(Some(settings))
}

/// The options of the command that follows a `$`, and nothing where it is none.
#[tactic(auto, unfolding(spl_cuts::specs::Commands::command, spl_cuts::specs::Commands::command_named))]
pub fn command(alloc: Global, line: &[u8]) -> Result<Option<Vec<Setting>>, AllocError>
    ensures { IfOk result (λ o. option_map (λ v. map setting_of v.items) o ≡ ct.command line.now) }
{
    let (name, more) = line.split_at(name_length(line));
    if is_word(name, b"PAGE") || is_word(name, b"TITLE") {
        Ok(Some(Vec::new(alloc)))
    } else if is_word(name, b"CONTROL") {
        options(alloc, more)
    } else {
        Ok(None)
    }
}
