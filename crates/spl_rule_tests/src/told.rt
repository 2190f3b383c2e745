//! What the checker tells of texts.
ghost use Rattle.std.specs.Prelude.{◌≤◌, length, map, IfOk};
ghost use Rattle.spl_types.specs.spl_sound.Spelled.{AreSpelled, Spelled, most_units, source_of};

use spl_front::{UnitFault, read_unit};
use spl_tree::SplUnit;
use spl_types::{CheckFault, check};
use std::alloc::Global;

/// The first rule that is broken, with unit, line and column; that none is; or that a text spells no unit.
#[derive(Clone, Copy, Debug, PartialEq, Eq)]
pub enum Told {
    Rule(u8, u8, u32, u32),
    Sound,
    Unread,
}

/// The most bytes of a text.
const MOST_BYTES: usize = 1_048_576;

/// The unit that a text spells, with this number.
fn unit(alloc: Global, bytes: &[u8], number: u8) -> Result<SplUnit, UnitFault>
    ensures { IfOk result (λ u. Spelled number (source_of u)) }
{
    if bytes.len() > MOST_BYTES {
        return Err(UnitFault::NoMemory);
    }
    read_unit(alloc, bytes, number)
}

/// What the checker tells of units.
fn checked(alloc: Global, units: Vec<SplUnit>) -> Told
    requires few { length units.items ≤ most_units }
    requires spelled { AreSpelled (map source_of units.items) }
{
    match check(alloc, units) {
        Ok(_) => Told::Sound,
        Err(CheckFault::Rule { rule, at }) => Told::Rule(rule, at.unit, at.line, at.column),
        Err(CheckFault::NoMemory) => Told::Unread,
    }
}

/// What the checker tells of one unit.
#[tactic(auto, using(crate::proofs::SpelledLists::spelled_lists))]
pub fn one(alloc: Global, text: &[u8]) -> Told {
    match unit(alloc, text, 1) {
        Ok(unit) => match vec![in alloc; unit] {
            Ok(units) => checked(alloc, units),
            Err(_) => Told::Unread,
        },
        Err(_) => Told::Unread,
    }
}

/// What the checker tells of two units.
#[tactic(auto, using(crate::proofs::SpelledLists::spelled_lists))]
pub fn two(alloc: Global, first: &[u8], second: &[u8]) -> Told {
    match (unit(alloc, first, 1), unit(alloc, second, 2)) {
        (Ok(first), Ok(second)) => match vec![in alloc; first, second] {
            Ok(units) => checked(alloc, units),
            Err(_) => Told::Unread,
        },
        _ => Told::Unread,
    }
}
