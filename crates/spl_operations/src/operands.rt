//! The words of names: where they are for instructions, and what loads them or takes their addresses.
ghost use Rattle.std.specs.Prelude.{◌≡◌, true, OnOk, IfOk, option_map};
ghost use Rattle.hp_instr.specs.Given.{is_mode};
ghost use Rattle.spl_code.specs.spl_meaning.References as refs;
ghost use Rattle.spl_code.specs.spl_meaning.References.{access_of};
ghost use Rattle.spl_sorts.specs.Sorts.{sort_of};
ghost use Rattle.spl_spots.specs.Spots.{spot_of};
ghost use Rattle.spl_code.specs.Instructions as instr;
ghost use Rattle.spl_code.specs.Parts.{piece, pieces};
ghost use Rattle.spl_code.specs.Operands as operands;
ghost use Rattle.spl_code.specs.Appends.{Appends};
ghost use Rattle.spl_operations.specs.Views.{access_view};

use crate::puts::{instruct, operate, shift_by};
use hp_instr::{Instr, Mode, Op, major, shift};
use spl_branch::Code;
use spl_sorts::Sort;
use spl_spots::{Place, plus};
use spl_tree::Kind;
use std::alloc::AllocError;

/// How a name leads to a word.
#[derive(Clone, Copy, Debug, PartialEq, Eq)]
pub enum Access {
    /// It has words of its own.
    Own(Kind),
    /// Its word is an address that was passed for it.
    ByAddress(Kind),
    /// Its word leads to elements, of a pointer or not.
    ByCell(bool, Kind),
    /// It leads to none.
    Nowhere,
}

impl Access {
    /// How what a name stands for leads to a word.
    pub fn of(sort: Option<&Sort>) -> Access
        ensures { access_view result ≡ access_of (option_map (λ s. sort_of s.now) sort.entry) }
    {
        match sort {
            Some(Sort::Simple(kind, _) | Sort::Value(kind)) => Access::Own(*kind),
            Some(Sort::ByReference(kind)) => Access::ByAddress(*kind),
            Some(Sort::Array { kind, .. } | Sort::View(kind, _, _) | Sort::ArrayParameter(kind)) =>
                Access::ByCell(false, *kind),
            Some(Sort::Pointer(kind, _)) => Access::ByCell(true, *kind),
            _ => Access::Nowhere,
        }
    }

    /// Whether what it leads to is DOUBLE.
    pub fn is_double(self) -> bool
        ensures { result ≡ operands.leads_to_doubles (access_view self) }
    {
        match self {
            Access::Own(kind) | Access::ByAddress(kind) | Access::ByCell(_, kind) => {
                matches!(kind, Kind::Double)
            }
            Access::Nowhere => false,
        }
    }
}

/// The mode of a place while so many words wait.
#[tactic(auto, using(crate::proofs::PutLemmas::mode_fits))]
pub fn mode_of(waiting: u64, place: Place) -> Result<Mode, AllocError>
    ensures value { IfOk result (λ m. m ≡ operands.mode_of waiting (spot_of place)) }
    ensures fits { IfOk result (λ m. is_mode m ≡ true) }
{
    match place {
        Place::DataWord(a) => Ok(Mode::DbPlus((a % 256) as u8)),
        Place::AboveBase(n) => Ok(Mode::QPlus((n % 128) as u8)),
        Place::BelowBase(n) => Ok(Mode::QMinus((n % 64) as u8)),
        Place::BelowReturn(n) => Ok(Mode::SMinus((plus(waiting, n)? % 64) as u8)),
    }
}

/// Appends the load of a kind, indirect or not, indexed or not.
#[tactic(auto, unfolding(hp_instr::specs::Given::has_word, hp_instr::specs::Fields::is_reference))]
fn load(code: &mut Code, kind: Kind, i: bool, x: bool, mode: Mode) -> Result<(), AllocError>
    requires { is_mode mode ≡ true }
    ensures { OnOk result (Appends (piece (operands.load kind i x mode)) code.old code.new) }
{
    let (major, second) = match kind {
        Kind::Integer | Kind::Logical => (major::LOAD, true),
        Kind::Byte => (major::LDB, false),
        Kind::Double => (major::LDB, true),
    };
    instruct(
        code,
        Instr::Memory {
            major,
            second,
            x,
            i,
            mode,
        },
    )
}

/// Appends what pushes the value to which a name leads, with its index in X where there is one.
pub fn load_at(code: &mut Code, access: Access, indexed: bool, mode: Mode) -> Result<(), AllocError>
    requires { is_mode mode ≡ true }
    ensures { OnOk result (Appends (pieces (operands.loaded (access_view access) indexed mode)) code.old code.new) }
{
    match access {
        Access::Own(kind) => load(code, kind, false, indexed, mode),
        Access::ByAddress(kind) | Access::ByCell(_, kind) => load(code, kind, true, indexed, mode),
        Access::Nowhere => Ok(()),
    }
}

/// Appends LRA.
#[tactic(auto, unfolding(hp_instr::specs::Given::has_word, hp_instr::specs::Fields::is_reference))]
fn load_address(code: &mut Code, i: bool, x: bool, mode: Mode) -> Result<(), AllocError>
    requires { is_mode mode ≡ true }
    ensures { OnOk result (Appends (piece (instr.LRA i x mode)) code.old code.new) }
{
    instruct(
        code,
        Instr::Memory {
            major: major::LRA,
            second: true,
            x,
            i,
            mode,
        },
    )
}

/// Appends what pushes the address of a variable, of a BYTE that of its byte.
#[tactic(auto, using(spl_code::proofs::AppendLaws::more_pieces))]
fn own_address(code: &mut Code, kind: Kind, indexed: bool, mode: Mode) -> Result<(), AllocError>
    requires { is_mode mode ≡ true }
    ensures { OnOk result (Appends (pieces (operands.own_address kind indexed mode)) code.old code.new) }
{
    load_address(code, false, indexed, mode)?;
    match kind {
        Kind::Byte => shift_by(code, shift::LSL, 1),
        Kind::Integer | Kind::Logical | Kind::Double => Ok(()),
    }
}

/// Appends what pushes the address that a name's word is, with the index in X added where there is one.
fn cell_address(code: &mut Code, indexed: bool, mode: Mode) -> Result<(), AllocError>
    requires { is_mode mode ≡ true }
    ensures { OnOk result (Appends (pieces (operands.cell_address indexed mode)) code.old code.new) }
{
    if indexed {
        load_address(code, true, true, mode)
    } else {
        load(code, Kind::Integer, false, false, mode)
    }
}

/// Appends what pushes the address of what a name leads to, with its index in X where there is one.
pub fn address_at(
    code: &mut Code,
    access: Access,
    indexed: bool,
    mode: Mode,
) -> Result<(), AllocError>
    requires { is_mode mode ≡ true }
    ensures { OnOk result (Appends (pieces (operands.address (access_view access) indexed mode)) code.old code.new) }
{
    match access {
        Access::Own(kind) => own_address(code, kind, indexed, mode),
        Access::ByAddress(_) | Access::ByCell(..) => cell_address(code, indexed, mode),
        Access::Nowhere => Ok(()),
    }
}

/// Appends what moves an index to X, doubled where an address of DOUBLEs is wanted.
#[tactic(auto, using(spl_code::proofs::AppendLaws::more_pieces), unfolding(hp_instr::specs::Fields::is_op))]
pub fn index_to_x(code: &mut Code, doubled: bool) -> Result<(), AllocError>
    ensures { OnOk result (Appends (pieces (operands.index_to_x doubled)) code.old code.new) }
{
    if doubled {
        shift_by(code, shift::LSL, 1)?;
    }
    operate(code, Op::STAX)
}
