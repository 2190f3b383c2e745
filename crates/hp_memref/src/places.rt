//! Places: how an operand is found.
ghost use Rattle.std.specs.Prelude.{◌≡◌, ◌≤◌, IfErr};
ghost use Rattle.hp_word.specs.declared.endings.Trap.TheVariants.{Bounds};
ghost use Rattle.hp_session.specs.State.{Machine};
ghost use Rattle.hp_session.specs.Places.{base, byte_operand, first_byte, operand};
ghost use Rattle.hp_tos.specs.StackView.{seen};
ghost use Rattle.hp_rows.specs.Standing.{standing};
ghost use Rattle.hp_memref.specs.References.{added_index};

use hp_instr::Mode;
use hp_rows::read_at;
use hp_session::{Place, Regs};
use hp_tos::Stack;
use hp_word::Trap;

/// The place that a mode names.
#[tactic(auto, unfolding(hp_session::specs::Places::base))]
fn base(mode: Mode, regs: &Regs, stack: &Stack) -> Place
    ensures { (rest : Machine) → result ≡ base mode (standing regs.now (seen stack.now) rest) }
{
    let q = regs.q;
    match mode {
        Mode::DbPlus(d) => Place::Db(d as u16),
        Mode::QPlus(d) => Place::Stack(q.wrapping_add(d as u16)),
        Mode::QMinus(d) => Place::Stack(q.wrapping_sub(d as u16)),
        Mode::SMinus(d) => {
            Place::Stack(((stack.words() as u32 + 65535 - d as u32) % 65536) as u16)
        }
    }
}

/// What indexing adds to an operand of `size` words.
fn index(size: u8, x: bool, regs: &Regs) -> u32
    requires { size ≤ 2 }
    ensures value { result ≡ added_index size x regs.now }
    ensures bound { result ≤ 131070 }
{
    if x { size as u32 * regs.x as u32 } else { 0 }
}

/// The place of an operand of `size` words.
#[tactic(auto, unfolding(hp_session::specs::Places::operand))]
pub(crate) fn operand(
    size: u8,
    mode: Mode,
    i: bool,
    x: bool,
    regs: &Regs,
    stack: &Stack,
) -> Result<Place, Trap>
    requires { size ≤ 2 }
    ensures value { (rest : Machine) → result ≡ operand size mode i x (standing regs.now (seen stack.now) rest) }
    ensures trap { IfErr result (λ t. t ≡ Bounds) }
{
    let by = index(size, x, regs);
    let start = base(mode, regs, stack);
    if i {
        let cell = read_at(stack, start)?;
        Ok(Place::Db(cell).moved(by))
    } else {
        Ok(start.moved(by))
    }
}

/// The byte place of a place's left byte.
#[tactic(auto, unfolding(hp_session::specs::Places::first_byte))]
fn first_byte(place: Place) -> Place
    ensures { result ≡ first_byte place }
{
    match place {
        Place::Db(a) => Place::Db((2 * a as u32 % 65536) as u16),
        Place::Stack(a) => Place::Stack((2 * a as u32 % 65536) as u16),
    }
}

/// The byte place of an operand.
#[tactic(auto, unfolding(hp_session::specs::Places::byte_operand))]
pub(crate) fn byte_operand(
    mode: Mode,
    i: bool,
    x: bool,
    regs: &Regs,
    stack: &Stack,
) -> Result<Place, Trap>
    ensures value { (rest : Machine) → result ≡ byte_operand mode i x (standing regs.now (seen stack.now) rest) }
    ensures trap { IfErr result (λ t. t ≡ Bounds) }
{
    let by = index(1, x, regs);
    let start = base(mode, regs, stack);
    if i {
        let cell = read_at(stack, start)?;
        Ok(Place::Db(cell).moved(by))
    } else {
        Ok(first_byte(start).moved(by))
    }
}
