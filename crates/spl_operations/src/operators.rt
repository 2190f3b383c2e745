//! What operators are in the code.
ghost use Rattle.std.specs.Prelude.{◌≡◌, true, OnOk};
ghost use Rattle.std.specs.List.{list_all};
ghost use Rattle.spl_code.specs.spl_meaning.Kinds as kinds;
ghost use Rattle.spl_sorts.specs.Sorts.{operand_of};
ghost use Rattle.spl_code.specs.Parts.{pieces};
ghost use Rattle.spl_code.specs.Operators as operators;
ghost use Rattle.spl_code.specs.Appends.{Appends};
ghost use Rattle.spl_operations.specs.Views.{is_operation, operations, class_view};

use crate::puts::{immediate as put_immediate, instruct, operate, operate_all, shift_by};
use hp_instr::{Instr, Op, immediate, shift};
use spl_branch::Code;
use spl_sorts::Operand;
use spl_tree::{Kind, binary, unary};
use std::alloc::AllocError;

/// Which operation two operands take.
#[derive(Clone, Copy, Debug, PartialEq, Eq)]
pub enum Class {
    Integers,
    Logicals,
    Doubles,
    Mixed,
}

impl Class {
    /// That of these operands.
    pub fn of(left: Operand, right: Operand) -> Class
        ensures { class_view result ≡ kinds.class_of (operand_of left) (operand_of right) }
    {
        use Operand::{Constant, Of};
        match (left, right) {
            (Of(Kind::Integer) | Constant, Of(Kind::Integer) | Constant) => Class::Integers,
            (Of(Kind::Logical | Kind::Byte), Of(Kind::Logical | Kind::Byte) | Constant) => {
                Class::Logicals
            }
            (Constant, Of(Kind::Logical | Kind::Byte)) => Class::Logicals,
            (Of(Kind::Double), Of(Kind::Double)) => Class::Doubles,
            _ => Class::Mixed,
        }
    }
}

/// The operations of an operator on INTEGERs.
#[tactic(auto, unfolding(hp_instr::specs::Fields::is_op))]
fn on_integers(op: u8) -> &'static [Op]
    ensures value { operations result.now ≡ operators.integer_operator op }
    ensures listed { list_all is_operation result.now ≡ true }
{
    match op {
        binary::PLUS => &[Op::ADD],
        binary::MINUS => &[Op::SUB],
        binary::TIMES => &[Op::MPY],
        binary::MOD => &[Op::DIV, Op::DELB],
        _ => &[Op::DIV, Op::DEL],
    }
}

/// On LOGICALs.
#[tactic(auto, unfolding(hp_instr::specs::Fields::is_op))]
fn on_logicals(op: u8) -> &'static [Op]
    ensures value { operations result.now ≡ operators.logical_operator op }
    ensures listed { list_all is_operation result.now ≡ true }
{
    match op {
        binary::PLUS => &[Op::LADD],
        binary::MINUS => &[Op::LSUB],
        binary::TIMES => &[Op::LMPY, Op::DELB],
        binary::MOD => &[Op::ZERO, Op::CAB, Op::CAB, Op::LDIV, Op::DELB],
        _ => &[Op::ZERO, Op::CAB, Op::CAB, Op::LDIV, Op::DEL],
    }
}

/// On DOUBLEs.
#[tactic(auto, unfolding(hp_instr::specs::Fields::is_op))]
fn on_doubles(op: u8) -> &'static [Op]
    ensures value { operations result.now ≡ operators.double_operator op }
    ensures listed { list_all is_operation result.now ≡ true }
{
    match op {
        binary::PLUS => &[Op::DADD],
        _ => &[Op::DSUB],
    }
}

/// On bits.
#[tactic(auto, unfolding(hp_instr::specs::Fields::is_op))]
fn on_bits(op: u8) -> &'static [Op]
    ensures value { operations result.now ≡ operators.bit_operator op }
    ensures listed { list_all is_operation result.now ≡ true }
{
    match op {
        binary::LOR => &[Op::OR],
        binary::XOR => &[Op::XOR],
        _ => &[Op::AND],
    }
}

/// The operations of an operator that is neither AND nor OR nor a relation.
fn operator(class: Class, op: u8) -> &'static [Op]
    ensures value { operations result.now ≡ operators.operator (class_view class) op }
    ensures listed { list_all is_operation result.now ≡ true }
{
    if op < binary::EQUAL {
        on_bits(op)
    } else {
        match class {
            Class::Integers => on_integers(op),
            Class::Logicals => on_logicals(op),
            Class::Doubles => on_doubles(op),
            Class::Mixed => &[],
        }
    }
}

/// Appends an operator that is neither AND nor OR nor a relation, behind its operands.
pub fn operate_on_two(code: &mut Code, class: Class, op: u8) -> Result<(), AllocError>
    ensures { OnOk result (Appends (pieces (operators.operator (class_view class) op)) code.old code.new) }
{
    operate_all(code, operator(class, op))
}

/// What compares two operands.
#[tactic(auto, unfolding(hp_instr::specs::Fields::is_op))]
fn comparison(class: Class) -> &'static [Op]
    ensures value { operations result.now ≡ operators.comparison (class_view class) }
    ensures listed { list_all is_operation result.now ≡ true }
{
    match class {
        Class::Integers => &[Op::CMP],
        Class::Logicals => &[Op::LCMP],
        Class::Doubles => &[Op::DCMP],
        Class::Mixed => &[],
    }
}

/// Appends what compares two operands of a class.
pub fn compare(code: &mut Code, class: Class) -> Result<(), AllocError>
    ensures { OnOk result (Appends (pieces (operators.comparison (class_view class))) code.old code.new) }
{
    operate_all(code, comparison(class))
}

/// The operations of a sign or NOT.
#[tactic(auto, unfolding(hp_instr::specs::Fields::is_op))]
fn minus(operand: Operand) -> &'static [Op]
    ensures value { operations result.now ≡ operators.minus_operator (operand_of operand) }
    ensures listed { list_all is_operation result.now ≡ true }
{
    match operand {
        Operand::Of(Kind::Integer) | Operand::Constant => &[Op::NEG],
        Operand::Of(Kind::Logical | Kind::Byte) => &[Op::ZERO, Op::XCH, Op::LSUB],
        Operand::Of(Kind::Double) => &[Op::DNEG],
        Operand::Unknown => &[],
    }
}

/// The operations of a sign or NOT.
#[tactic(auto, unfolding(hp_instr::specs::Fields::is_op))]
fn sign(op: u8, operand: Operand) -> &'static [Op]
    ensures value { operations result.now ≡ operators.sign_operator op (operand_of operand) }
    ensures listed { list_all is_operation result.now ≡ true }
{
    match op {
        unary::PLUS => &[],
        unary::MINUS => minus(operand),
        _ => &[Op::NOT],
    }
}

/// Appends a sign or NOT, behind its operand.
pub fn operate_on_one(code: &mut Code, op: u8, operand: Operand) -> Result<(), AllocError>
    ensures { OnOk result (Appends (pieces (operators.sign_operator op (operand_of operand))) code.old code.new) }
{
    operate_all(code, sign(op, operand))
}

/// Appends a shift by its number.
pub fn shift_value(code: &mut Code, kind: u8, count: u64) -> Result<(), AllocError>
    ensures { OnOk result (Appends (pieces (operators.shift_operator kind count)) code.old code.new) }
{
    shift_by(code, kind.min(5), (count % 64) as u8)
}

/// Appends a bit field of a word, where it lies within the word.
#[tactic(auto, using(crate::proofs::FieldLemmas::field_is_instruction))]
pub fn extract(code: &mut Code, start: u64, size: u64) -> Result<(), AllocError>
    ensures { OnOk result (Appends (pieces (operators.field_operator start size)) code.old code.new) }
{
    if 1 <= size && size <= 16 && start <= 16 - size {
        let n = (16 * start + size % 16) as u8;
        instruct(
            code,
            Instr::Immediate {
                which: immediate::EXF,
                n,
            },
        )
    } else {
        Ok(())
    }
}

/// What leaves the single word of a value.
#[tactic(auto, unfolding(hp_instr::specs::Fields::is_op))]
fn single(from: Operand) -> &'static [Op]
    ensures value { operations result.now ≡ operators.single (operand_of from) }
    ensures listed { list_all is_operation result.now ≡ true }
{
    match from {
        Operand::Of(Kind::Double) => &[Op::DELB],
        Operand::Of(Kind::Integer | Kind::Logical | Kind::Byte)
        | Operand::Constant
        | Operand::Unknown => &[],
    }
}

/// Appends what makes a double of a word, by its sign or by zero.
#[tactic(auto, using(spl_code::proofs::AppendLaws::more_pieces), unfolding(hp_instr::specs::Fields::is_op))]
fn extend(code: &mut Code, from: Operand) -> Result<(), AllocError>
    ensures { OnOk result (Appends (pieces (operators.extension (operand_of from))) code.old code.new) }
{
    match from {
        Operand::Of(Kind::Integer) | Operand::Constant => {
            operate(code, Op::DUP)?;
            shift_by(code, shift::ASR, 15)?;
            operate(code, Op::XCH)
        }
        Operand::Of(Kind::Logical | Kind::Byte) => operate_all(code, &[Op::ZERO, Op::XCH]),
        Operand::Of(Kind::Double) | Operand::Unknown => Ok(()),
    }
}

/// Appends what takes a value of some kind as one of another.
#[tactic(auto, using(crate::proofs::PutLemmas::pieces_then))]
pub fn convert(code: &mut Code, to: Kind, from: Operand) -> Result<(), AllocError>
    ensures { OnOk result (Appends (pieces (operators.transfer to (operand_of from))) code.old code.new) }
{
    match to {
        Kind::Integer | Kind::Logical => operate_all(code, single(from)),
        Kind::Byte => {
            operate_all(code, single(from))?;
            put_immediate(code, immediate::ANDI, 255)
        }
        Kind::Double => extend(code, from),
    }
}

/// Appends what makes a value the word of a parameter: a BYTE goes to the left half.
pub fn pass(code: &mut Code, kind: Option<Kind>) -> Result<(), AllocError>
    ensures { OnOk result (Appends (pieces (operators.as_parameter kind)) code.old code.new) }
{
    match kind {
        Some(Kind::Byte) => shift_by(code, shift::LSL, 8),
        None | Some(Kind::Integer | Kind::Logical | Kind::Double) => Ok(()),
    }
}
