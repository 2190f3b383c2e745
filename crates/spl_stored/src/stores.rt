//! What stores the value on top in what a name leads to.
ghost use Rattle.std.specs.Prelude.{◌≡◌, true, false, OnOk};
ghost use Rattle.hp_instr.specs.Given.{is_mode};
ghost use Rattle.hp_instr.specs.declared.instruction.Mode.TheVariants as mode;
ghost use Rattle.spl_sorts.specs.spl_meaning.Kinds as kinds;
ghost use Rattle.spl_operations.specs.spl_spots.Spots.{spot_of};
ghost use Rattle.spl_statement_code.specs.spl_code.Instructions as i;
ghost use Rattle.spl_statement_code.specs.spl_code.Parts.{piece, pieces};
ghost use Rattle.spl_statement_code.specs.spl_code.Stores as stores;
ghost use Rattle.spl_statement_code.specs.spl_code.Appends.{Appends};
ghost use Rattle.spl_operations.specs.Views.{access_view};

use hp_instr::{Instr, Mode, Op, immediate, major};
use spl_branch::Code;
use spl_operations::spl_spots::Place;
use spl_operations::{Access, immediate as put_immediate, instruct, load_at, mode_of, operate};
use spl_tree::Kind;
use std::alloc::AllocError;

/// The words of a value of a kind.
pub fn width(kind: Kind) -> u8
    ensures { result ≡ kinds.width kind }
{
    match kind {
        Kind::Double => 2,
        Kind::Integer | Kind::Logical | Kind::Byte => 1,
    }
}

/// Whether a place is counted from the top.
pub fn from_top(place: Place) -> bool
    ensures { result ≡ stores.from_top (spot_of place) }
{
    matches!(place, Place::BelowReturn(_))
}

/// Appends the store of a kind, indirect or not, indexed or not.
#[tactic(auto, unfolding(hp_instr::specs::Given::has_word, hp_instr::specs::Fields::is_reference))]
pub fn store(code: &mut Code, kind: Kind, i: bool, x: bool, mode: Mode) -> Result<(), AllocError>
    requires { is_mode mode ≡ true }
    ensures { OnOk result (Appends (piece (stores.store kind i x mode)) code.old code.new) }
{
    let (major, second) = match kind {
        Kind::Integer | Kind::Logical => (major::STOR, true),
        Kind::Byte => (major::STB, false),
        Kind::Double => (major::STB, true),
    };
    instruct(
        code,
        Instr::Memory {
            major,
            second,
            x,
            i,
            mode,
        },
    )
}

/// Appends LDX of the word so far below the top, at most 63.
#[tactic(auto, unfolding(hp_instr::specs::Given::has_word, hp_instr::specs::Fields::is_reference))]
pub fn index_below(code: &mut Code, distance: u8) -> Result<(), AllocError>
    requires { is_mode (mode.SMinus distance) ≡ true }
    ensures { OnOk result (Appends (piece (i.LDX (mode.SMinus distance))) code.old code.new) }
{
    instruct(
        code,
        Instr::Memory {
            major: major::LDX,
            second: true,
            x: false,
            i: false,
            mode: Mode::SMinus(distance),
        },
    )
}

/// Appends what brings the top word below a value of a kind.
#[tactic(auto, using(spl_operations::proofs::PutLemmas::joins), unfolding(hp_instr::specs::Fields::is_op))]
fn turn_under(code: &mut Code, kind: Kind) -> Result<(), AllocError>
    ensures { OnOk result (Appends (pieces (stores.turned_under kind)) code.old code.new) }
{
    match kind {
        Kind::Double => {
            operate(code, Op::CAB)?;
            operate(code, Op::CAB)
        }
        Kind::Integer | Kind::Logical | Kind::Byte => operate(code, Op::XCH),
    }
}

/// Appends what brings the word at a mode, which so many words above it have moved away, below the value.
#[tactic(auto, using(spl_operations::proofs::PutLemmas::joins))]
pub fn bring_under(code: &mut Code, kind: Kind, above: u8, mode: Mode) -> Result<(), AllocError>
    requires { is_mode mode ≡ true }
    ensures { OnOk result (Appends (pieces (stores.cell_under kind above mode)) code.old code.new) }
{
    put_immediate(code, immediate::LDXN, above)?;
    load_at(code, Access::Own(Kind::Integer), true, mode)?;
    turn_under(code, kind)
}

/// Appends the store in a variable.
#[tactic(auto, using(spl_operations::proofs::PutLemmas::joins))]
pub fn store_own(code: &mut Code, kind: Kind, moved: bool, mode: Mode) -> Result<(), AllocError>
    requires { is_mode mode ≡ true }
    ensures { OnOk result (Appends (pieces (stores.own_stored kind moved mode)) code.old code.new) }
{
    if moved {
        let above = match kind {
            Kind::Byte => 2,
            Kind::Integer | Kind::Logical | Kind::Double => 1,
        };
        put_immediate(code, immediate::LDXN, above)?;
        store(code, kind, false, true, mode)
    } else {
        store(code, kind, false, false, mode)
    }
}

/// Appends the store through the word at a mode.
#[tactic(auto, using(spl_operations::proofs::PutLemmas::joins), unfolding(hp_instr::specs::Fields::is_op))]
fn store_through(code: &mut Code, kind: Kind, moved: bool, mode: Mode) -> Result<(), AllocError>
    requires { is_mode mode ≡ true }
    ensures { OnOk result (Appends (pieces (stores.cell_stored kind moved mode)) code.old code.new) }
{
    if moved {
        bring_under(code, kind, width(kind), mode)?;
        store(code, kind, true, false, Mode::SMinus(width(kind)))?;
        operate(code, Op::DEL)
    } else {
        store(code, kind, true, false, mode)
    }
}

/// Appends the store through the word at a mode, at an index that waits below the value.
#[tactic(auto, using(spl_operations::proofs::PutLemmas::joins), unfolding(hp_instr::specs::Fields::is_op))]
fn store_element(code: &mut Code, kind: Kind, moved: bool, mode: Mode) -> Result<(), AllocError>
    requires { is_mode mode ≡ true }
    ensures { OnOk result (Appends (pieces (stores.element_stored kind moved mode)) code.old code.new) }
{
    let words = width(kind);
    if moved {
        bring_under(code, kind, words + 1, mode)?;
        index_below(code, words + 1)?;
        store(code, kind, true, true, Mode::SMinus(words))?;
        operate(code, Op::DDEL)
    } else {
        index_below(code, words)?;
        store(code, kind, true, true, mode)?;
        operate(code, Op::DEL)
    }
}

/// Appends the store through the word of a name.
fn store_led(
    code: &mut Code,
    kind: Kind,
    indexed: bool,
    moved: bool,
    mode: Mode,
) -> Result<(), AllocError>
    requires { is_mode mode ≡ true }
    ensures { OnOk result (Appends (pieces (stores.led_stored kind indexed moved mode)) code.old code.new) }
{
    if indexed {
        store_element(code, kind, moved, mode)
    } else {
        store_through(code, kind, moved, mode)
    }
}

/// Appends the store in what a name leads to, at a place where so many words waited before index and value.
pub fn store_at(
    code: &mut Code,
    access: Access,
    indexed: bool,
    waiting: u64,
    place: Place,
) -> Result<(), AllocError>
    ensures { OnOk result (Appends (pieces (stores.stored (access_view access) indexed waiting (spot_of place))) code.old code.new) }
{
    let mode = mode_of(waiting, place)?;
    match access {
        Access::Own(kind) => store_own(code, kind, from_top(place), mode),
        Access::ByAddress(kind) | Access::ByCell(_, kind) => {
            store_led(code, kind, indexed, from_top(place), mode)
        }
        Access::Nowhere => Ok(()),
    }
}
