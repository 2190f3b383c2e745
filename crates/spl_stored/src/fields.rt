//! What puts the word on top into a bit field of what a name leads to. The field lies within a word.
ghost use Rattle.std.specs.Prelude.{◌≡◌, ◌≤◌, ◌+◌, ◌++◌, ◌∷◌, [], true, false, OnOk};
ghost use Rattle.hp_instr.specs.Given.{is_mode};
ghost use Rattle.spl_operations.specs.spl_spots.Spots.{spot_of};
ghost use Rattle.spl_statement_code.specs.spl_code.Instructions as i;
ghost use Rattle.spl_statement_code.specs.spl_code.Parts.{piece, pieces};
ghost use Rattle.spl_statement_code.specs.spl_code.Stores as stores;
ghost use Rattle.spl_statement_code.specs.spl_code.Appends.{Appends};
ghost use Rattle.spl_operations.specs.Views.{access_view};

use crate::stores::{bring_under, from_top, index_below, store};
use hp_instr::{Instr, Mode, Op, immediate};
use spl_branch::Code;
use spl_operations::spl_spots::Place;
use spl_operations::{Access, immediate as put_immediate, instruct, load_at, mode_of, operate};
use spl_tree::Kind;
use std::alloc::AllocError;

/// A bit field: its first bit and its length.
#[derive(Clone, Copy, Debug, PartialEq, Eq)]
pub struct Bits {
    pub start: u64,
    pub size: u64,
    ghost some: { 1 ≤ size },
    ghost within: { start + size ≤ 16 },
}

/// Appends DPF of a field.
#[tactic(auto, using(crate::proofs::FieldLemmas::deposit_is_instruction))]
fn deposit_in(code: &mut Code, bits: Bits) -> Result<(), AllocError>
    ensures { OnOk result (Appends (piece (i.DPF bits.start bits.size)) code.old code.new) }
{
    let n = (16 * bits.start + bits.size % 16) as u8;
    instruct(
        code,
        Instr::Immediate {
            which: immediate::DPF,
            n,
        },
    )
}

/// Appends what puts the word on top into a field of the word at a mode, indirect or not, indexed or not.
#[tactic(auto, using(spl_operations::proofs::PutLemmas::joins), unfolding(hp_instr::specs::Fields::is_op))]
fn deposit(
    code: &mut Code,
    bits: Bits,
    indirect: bool,
    indexed: bool,
    mode: Mode,
) -> Result<(), AllocError>
    requires { is_mode mode ≡ true }
    ensures { OnOk result (Appends (pieces (stores.deposited bits.start bits.size indirect indexed mode)) code.old code.new) }
{
    if indirect {
        load_at(code, Access::ByAddress(Kind::Integer), indexed, mode)?;
    } else {
        load_at(code, Access::Own(Kind::Integer), indexed, mode)?;
    }
    operate(code, Op::XCH)?;
    deposit_in(code, bits)?;
    store(code, Kind::Integer, indirect, indexed, mode)
}

/// Appends the same for a variable.
#[tactic(auto, using(spl_operations::proofs::PutLemmas::joins))]
fn deposit_own(code: &mut Code, bits: Bits, moved: bool, mode: Mode) -> Result<(), AllocError>
    requires { is_mode mode ≡ true }
    ensures { OnOk result (Appends (pieces (stores.own_field bits.start bits.size moved mode)) code.old code.new) }
{
    if moved {
        put_immediate(code, immediate::LDXN, 1)?;
    }
    deposit(code, bits, false, moved, mode)
}

/// Appends the same through the word at a mode.
#[tactic(auto, using(spl_operations::proofs::PutLemmas::joins), unfolding(hp_instr::specs::Fields::is_op))]
fn deposit_through(code: &mut Code, bits: Bits, moved: bool, mode: Mode) -> Result<(), AllocError>
    requires { is_mode mode ≡ true }
    ensures { OnOk result (Appends (pieces (stores.cell_field bits.start bits.size moved mode)) code.old code.new) }
{
    if moved {
        bring_under(code, Kind::Integer, 1, mode)?;
        deposit(code, bits, true, false, Mode::SMinus(1))?;
        operate(code, Op::DEL)
    } else {
        deposit(code, bits, true, false, mode)
    }
}

/// Appends the same behind what loaded the index of an element, which waits below the value and is deleted at the end.
#[tactic(auto, using(spl_operations::proofs::PutLemmas::joins), unfolding(hp_instr::specs::Fields::is_op))]
fn deposit_indexed(code: &mut Code, bits: Bits, mode: Mode) -> Result<(), AllocError>
    requires { is_mode mode ≡ true }
    ensures { OnOk result (Appends (pieces (stores.deposited bits.start bits.size true true mode ++ i.DEL ∷ [])) code.old code.new) }
{
    deposit(code, bits, true, true, mode)?;
    operate(code, Op::DEL)
}

/// Appends the same for an element, whose index waits below the value.
#[tactic(auto, using(spl_operations::proofs::PutLemmas::joins), unfolding(hp_instr::specs::Fields::is_op))]
fn deposit_element(code: &mut Code, bits: Bits, moved: bool, mode: Mode) -> Result<(), AllocError>
    requires { is_mode mode ≡ true }
    ensures { OnOk result (Appends (pieces (stores.element_field bits.start bits.size moved mode)) code.old code.new) }
{
    if moved {
        bring_under(code, Kind::Integer, 2, mode)?;
        index_below(code, 2)?;
        deposit(code, bits, true, true, Mode::SMinus(1))?;
        operate(code, Op::DDEL)
    } else {
        index_below(code, 1)?;
        deposit_indexed(code, bits, mode)
    }
}

/// Appends the same through the word of a name.
fn deposit_led(
    code: &mut Code,
    bits: Bits,
    indexed: bool,
    moved: bool,
    mode: Mode,
) -> Result<(), AllocError>
    requires { is_mode mode ≡ true }
    ensures { OnOk result (Appends (pieces (stores.led_field bits.start bits.size indexed moved mode)) code.old code.new) }
{
    if indexed {
        deposit_element(code, bits, moved, mode)
    } else {
        deposit_through(code, bits, moved, mode)
    }
}

/// Appends what puts the word on top into a field of what a name leads to, at a place where so many words waited before
/// index and value.
pub fn deposit_at(
    code: &mut Code,
    access: Access,
    bits: Bits,
    indexed: bool,
    waiting: u64,
    place: Place,
) -> Result<(), AllocError>
    ensures { OnOk result (Appends (pieces (stores.field_stored (access_view access) bits.start bits.size indexed waiting (spot_of place))) code.old code.new) }
{
    let mode = mode_of(waiting, place)?;
    match access {
        Access::Own(_) => deposit_own(code, bits, from_top(place), mode),
        Access::ByAddress(_) | Access::ByCell(..) => {
            deposit_led(code, bits, indexed, from_top(place), mode)
        }
        Access::Nowhere => Ok(()),
    }
}
