//! Calls: the words of their results, and PCAL and SCAL.
ghost use Rattle.std.specs.Prelude.{◌≡◌, true, false, OnOk};
ghost use Rattle.spl_tree.specs.Views.{letters};
ghost use Rattle.hp_instr.specs.declared.instruction.Instr.TheVariants as i;
ghost use Rattle.spl_branch.specs.declared.pieces.Piece.TheVariants as p;
ghost use Rattle.spl_operations.specs.spl_code.Parts.{piece, pieces, call_wanted};
ghost use Rattle.spl_operations.specs.spl_code.Calls as calls;
ghost use Rattle.spl_operations.specs.spl_code.Appends.{Appends};
ghost use Rattle.spl_operations.specs.Views.{is_call_code};

use hp_instr::{Instr, Op, control, shift};
use spl_branch::{Code, Piece};
use spl_operations::{operate, shift_by};
use spl_tree::{Kind, Name};
use std::alloc::AllocError;

/// Appends zeros for the words of a result.
#[tactic(auto, unfolding(hp_instr::specs::Fields::is_op))]
pub fn make_room(code: &mut Code, kind: Option<Kind>) -> Result<(), AllocError>
    ensures { OnOk result (Appends (pieces (calls.result_room kind)) code.old code.new) }
{
    match kind {
        None => Ok(()),
        Some(Kind::Double) => operate(code, Op::DZRO),
        Some(Kind::Integer | Kind::Logical | Kind::Byte) => operate(code, Op::ZERO),
    }
}

/// Appends what makes a value of a result: that of a BYTE stands in the left half of its word.
pub fn take_result(code: &mut Code, kind: Option<Kind>) -> Result<(), AllocError>
    ensures { OnOk result (Appends (pieces (calls.result_taken kind)) code.old code.new) }
{
    match kind {
        Some(Kind::Byte) => shift_by(code, shift::LSR, 8),
        None | Some(Kind::Integer | Kind::Logical | Kind::Double) => Ok(()),
    }
}

/// Appends PCAL or SCAL of an entry of the module.
#[tactic(auto, unfolding(hp_instr::specs::Given::has_word, hp_instr::specs::Fields::is_control))]
fn call_entry(code: &mut Code, which: u8, index: usize) -> Result<(), AllocError>
    requires { is_call_code which ≡ true }
    ensures { OnOk result (Appends (piece (p.Call (i.Control which 0) false index)) code.old code.new) }
{
    code.put(Piece::Call {
        by: Instr::Control { which, n: 0 },
        wanted: false,
        index,
    })
}

/// Appends PCAL of a name of another module or of an intrinsic, which is wanted from then on.
#[tactic(auto, unfolding(hp_instr::specs::Given::has_word, hp_instr::specs::Fields::is_control))]
pub fn call_name(code: &mut Code, name: &Name, gate: bool) -> Result<(), AllocError>
    ensures { OnOk result (Appends (call_wanted (letters name.now) gate) code.old code.new) }
{
    let index = code.want(name.copy(), gate)?;
    code.put(Piece::Call {
        by: Instr::Control {
            which: control::PCAL,
            n: 0,
        },
        wanted: true,
        index,
    })
}

/// Appends PCAL of a procedure: by its entry where it has one.
pub fn call_procedure(code: &mut Code, name: &Name, entry: Option<usize>) -> Result<(), AllocError>
    ensures { OnOk result (Appends (calls.procedure_called (letters name.now) entry) code.old code.new) }
{
    match entry {
        Some(index) => call_entry(code, control::PCAL, index),
        None => call_name(code, name, false),
    }
}

/// Appends SCAL of a subroutine by its entry.
pub fn call_subroutine(code: &mut Code, entry: Option<usize>) -> Result<(), AllocError>
    ensures { OnOk result (Appends (calls.subroutine_called entry) code.old code.new) }
{
    match entry {
        Some(index) => call_entry(code, control::SCAL, index),
        None => Ok(()),
    }
}
