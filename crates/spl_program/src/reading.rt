//! A program, from the texts of its units.
ghost use Rattle.std.specs.Prelude.{◌≡◌, ◌≤◌, length, map, IfOk, IfErr, List};
ghost use Rattle.spl_cuts.specs.Cutting.{CutsWithin};
ghost use Rattle.spl_lexer.specs.TokenViews.{listed_of};
ghost use Rattle.spl_sound.specs.spl_meaning.Tables.{Source};
ghost use Rattle.spl_sound.specs.Spelled.{AreSpelled, most_units, source_of};
ghost use Rattle.spl_program.specs.declared.faults.ProgramFault as faults;
ghost use Rattle.spl_program.specs.Texts.{most_tokens, AreCut, IsSpelled, AreUnits};
ghost use Rattle.spl_program.specs.Programs.{texts_of, AreShort, IsProgram, IsFault, Tells, Gives, Refuses};
ghost use Rattle.spl_program.specs.Steps.{UncutBy, UncutAmong, UnspelledBy, UnspelledAmong, BrokenBy, IsReady, AreReady};

use crate::faults::{ProgramFault, kind_of};
use spl_lexer::tokens;
use spl_limits::{LimitFault, limits};
use spl_parser::{ParseFault, parse};
use spl_sound::Sound;
use spl_tree::{Chars, FaultKind, Lexed, SplUnit};
use spl_types::{CheckFault, check};
use std::alloc::Global;

/// The tokens of the text of unit number `unit`.
fn cut(alloc: Global, text: &[u8], unit: u8) -> Result<Lexed, ProgramFault>
    requires { length text.now ≤ 1048576 }
    ensures cut { IfOk result (λ x. CutsWithin unit most_tokens text.now (listed_of x)) }
    ensures ready { IfOk result (λ x. IsReady x) }
    ensures fault { IfErr result (λ f. UncutBy unit text.now f) }
{
    match tokens(alloc, text, unit) {
        Ok(lexed) => Ok(lexed),
        Err(fault) => match kind_of(fault.kind) {
            None => Err(ProgramFault::NoMemory),
            Some(kind) => Err(ProgramFault::Text { kind, at: fault.at }),
        },
    }
}

/// The unit that the tokens of a text spell.
fn spell(alloc: Global, lexed: &Lexed) -> Result<SplUnit, ProgramFault>
    requires { IsReady lexed.now }
    ensures unit { IfOk result (λ u. IsSpelled (listed_of lexed.now) (source_of u)) }
    ensures fault { IfErr result (λ f. UnspelledBy (listed_of lexed.now) f) }
{
    match parse(alloc, lexed) {
        Ok(unit) => Ok(unit),
        Err(ParseFault::Syntax { at }) => Err(ProgramFault::Text {
            kind: FaultKind::Syntax,
            at: lexed.tokens[at as usize].at,
        }),
        Err(ParseFault::TooDeep { at }) => Err(ProgramFault::Text {
            kind: FaultKind::TooDeep,
            at: lexed.tokens[at as usize].at,
        }),
        Err(ParseFault::NoMemory) => Err(ProgramFault::NoMemory),
    }
}

/// The tokens of all texts, of which the first is that of unit 1.
fn cut_all(alloc: Global, texts: &[Chars]) -> Result<Vec<Lexed>, ProgramFault>
    requires few { length texts.now ≤ 32 }
    requires short { AreShort texts.now }
    ensures cut { IfOk result (λ xs. AreCut 1 (texts_of texts.now) (map listed_of xs.items)) }
    ensures ready { IfOk result (λ xs. AreReady xs.items) }
    ensures fault { IfErr result (λ f. UncutAmong 1 (texts_of texts.now) f) }
{
    let mut all = Vec::with_capacity(alloc, texts.len())?;
    for (i, text) in texts.iter().enumerate() {
        let lexed = cut(alloc, &text.bytes, i as u8 + 1)?;
        all.push(lexed)?;
    }
    Ok(all)
}

/// The units that the tokens of all texts spell.
fn spell_all(alloc: Global, all: &[Lexed]) -> Result<Vec<SplUnit>, ProgramFault>
    requires { AreReady all.now }
    ensures units { IfOk result (λ us. AreUnits (map listed_of all.now) (map source_of us.items)) }
    ensures fault { IfErr result (λ f. UnspelledAmong (map listed_of all.now) f) }
{
    let mut units = Vec::with_capacity(alloc, all.len())?;
    for lexed in all {
        let unit = spell(alloc, lexed)?;
        units.push(unit)?;
    }
    Ok(units)
}

/// The units, if they break no rule.
fn checked(alloc: Global, units: Vec<SplUnit>) -> Result<Sound, ProgramFault>
    requires few { length units.items ≤ most_units }
    requires spelled { AreSpelled (map source_of units.items) }
    ensures sound { IfOk result (λ s. s.units ≡ units) }
    ensures rule { IfErr result (λ f. BrokenBy (map source_of units.items) f) }
{
    match check(alloc, units) {
        Ok(sound) => Ok(sound),
        Err(CheckFault::Rule { rule, at }) => Err(ProgramFault::Rule { rule, at }),
        Err(CheckFault::NoMemory) => Err(ProgramFault::NoMemory),
    }
}

/// The program of units with these texts, or their first fault.
fn program_of(alloc: Global, texts: &[Chars]) -> Result<Sound, ProgramFault>
    requires few { length texts.now ≤ 32 }
    requires short { AreShort texts.now }
    ensures program { IfOk result (λ s. IsProgram (texts_of texts.now) (map source_of s.units.items)) }
    ensures fault { IfErr result (λ f. Tells (texts_of texts.now) f) }
{
    let all = cut_all(alloc, texts)?;
    let units = spell_all(alloc, &all)?;
    let sound = checked(alloc, units)?;
    match limits(alloc, &sound) {
        Ok(()) => Ok(sound),
        Err(LimitFault::Full { limit, at, .. }) => Err(ProgramFault::Limit { limit, at }),
        Err(LimitFault::NoMemory) => Err(ProgramFault::NoMemory),
    }
}

/// The program of units with these texts: at most 32, numbered from 1 in their order, of at most 1,048,576 bytes each.
///
/// Err: the first fault. Faults of tokens, of any unit, come before those of spelling, these before broken rules, and these before
/// limits; of each of these the first unit's comes first, and in a unit the first by its place. `NoMemory` may come in place of any other answer.
pub fn read_program(alloc: Global, texts: &[Chars]) -> Result<Sound, ProgramFault>
    requires few { length texts.now ≤ 32 }
    requires short { AreShort texts.now }
    ensures program { IfOk result (λ s. IsProgram (texts_of texts.now) (map source_of s.units.items)) }
    ensures fault { IfErr result (λ f. Tells (texts_of texts.now) f) }

    // Texts of a program give its units, and texts that have a fault that fault.
    ensures programs { (us : List Source) → IsProgram (texts_of texts.now) us → Gives result us }
    ensures faults { (f : faults.ProgramFault) → IsFault (texts_of texts.now) f → Refuses result f }
{
    program_of(alloc, texts)
}
