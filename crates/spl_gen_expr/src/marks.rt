//! Marks of conditions: made, led to and set.
ghost use Rattle.std.specs.Prelude.{◌≡◌, ◌<◌, suc, true, false, length, OnOk, IfOk};
ghost use Rattle.spl_branch.specs.Pieces.{is_settable};
ghost use Rattle.spl_branch.specs.declared.pieces.Piece.TheVariants as p;
ghost use Rattle.spl_operations.specs.spl_code.Instructions as i;
ghost use Rattle.spl_operations.specs.spl_code.Operators.{failing_codes};
ghost use Rattle.spl_operations.specs.spl_code.Parts.{piece, nothing};
ghost use Rattle.spl_operations.specs.spl_code.Code.{closing, related};
ghost use Rattle.spl_operations.specs.spl_code.Appends.{Appends};
ghost use Rattle.spl_gen_expr.specs.Marks.{aim_view, Known, Within, Sets, Opened, Pending, Ended};

use hp_instr::{Instr, Op, immediate, short};
use spl_branch::{Code, Piece};
use spl_operations::{branch, immediate as put_immediate, operate};
use std::alloc::AllocError;

/// What is wanted of an expression: its value, or a test that goes on where it is true and leads to a mark where it is not.
#[derive(Clone, Copy, Debug, PartialEq, Eq)]
pub enum Aim {
    Value,
    Test(usize),
}

/// Where a condition leads to where it is false; and as a value the mark behind it.
#[derive(Clone, Copy, Debug, PartialEq, Eq)]
pub struct Opening {
    pub fail: usize,
    pub end: Option<usize>,
}

/// Makes two marks and answers the first; the second is the next number.
pub fn two_marks(code: &mut Code) -> Result<usize, AllocError>
    ensures first { IfOk result (λ l. l ≡ length code.old.marks.items) }
    ensures made { OnOk result (Within false false nothing code.old code.new) }
{
    let first = code.fresh()?;
    code.fresh()?;
    Ok(first)
}

/// Sets a mark here.
pub fn set_mark(code: &mut Code, mark: usize) -> Result<(), AllocError>
    requires { is_settable code.old.marks.items (p.Mark mark) ≡ true }
    ensures { OnOk result (Sets mark code.old code.new) }
{
    code.put(Piece::Mark(mark))
}

/// Appends BR to a mark.
#[tactic(auto, unfolding(hp_instr::specs::Given::has_word))]
pub fn lead(code: &mut Code, mark: usize) -> Result<(), AllocError>
    requires { mark < length code.old.marks.items }
    ensures { OnOk result (Appends (piece (i.BR mark)) code.old code.new) }
{
    branch(
        code,
        Instr::Branch {
            i: false,
            back: false,
            d: 0,
        },
        mark,
    )
}

/// Appends the branch to a mark that a relation takes where it does not hold, behind what compared its operands.
#[tactic(auto, unfolding(hp_instr::specs::Given::has_word))]
pub fn relate(code: &mut Code, relation: u8, fail: usize) -> Result<(), AllocError>
    requires { fail < length code.old.marks.items }
    ensures { OnOk result (Appends (related relation fail) code.old code.new) }
{
    let mask = match relation {
        0 => 5,
        1 => 2,
        2 => 6,
        3 => 3,
        4 => 4,
        _ => 1,
    };
    branch(
        code,
        Instr::OnCode {
            mask,
            back: false,
            d: 0,
        },
        fail,
    )
}

/// Appends the test of a value by its lowest bit, where a test is wanted.
#[tactic(auto, unfolding(hp_instr::specs::Given::has_word, hp_instr::specs::Fields::is_short_branch))]
pub fn close(code: &mut Code, aim: Aim) -> Result<(), AllocError>
    requires { Known aim code.old }
    ensures { OnOk result (Appends (closing (aim_view aim)) code.old code.new) }
{
    match aim {
        Aim::Value => Ok(()),
        Aim::Test(fail) => branch(
            code,
            Instr::Short {
                test: short::BRE,
                back: false,
                d: 0,
            },
            fail,
        ),
    }
}

/// Begins a condition.
pub fn open(code: &mut Code, aim: Aim) -> Result<Opening, AllocError>
    ensures { IfOk result (λ o. Opened (aim_view aim) o code.old code.new) }
{
    match aim {
        Aim::Test(fail) => Ok(Opening { fail, end: None }),
        Aim::Value => {
            let fail = two_marks(code)?;
            Ok(Opening {
                fail,
                end: Some(fail + 1),
            })
        }
    }
}

/// Ends a condition: as a value, all ones where it goes on, and zero at its mark.
#[tactic(auto, unfolding(hp_instr::specs::Fields::is_op))]
pub fn end(code: &mut Code, o: Opening) -> Result<(), AllocError>
    requires { Pending o.end o.fail code.old }
    ensures { OnOk result (Ended o.end o.fail code.old code.new) }
{
    if let Some(end) = o.end {
        put_immediate(code, immediate::LDNI, 1)?;
        lead(code, end)?;
        set_mark(code, o.fail)?;
        operate(code, Op::ZERO)?;
        set_mark(code, end)?;
    }
    Ok(())
}
