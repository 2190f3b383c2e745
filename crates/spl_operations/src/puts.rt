//! Single pieces, appended to a code.
ghost use Rattle.std.specs.Prelude.{◌≡◌, ◌∷◌, [], true, OnOk, length, ◌<◌};
ghost use Rattle.std.specs.List.{list_all};
ghost use Rattle.hp_instr.specs.Given.{has_word};
ghost use Rattle.spl_branch.specs.Pieces.{is_direct};
ghost use Rattle.spl_branch.specs.declared.pieces.Piece.TheVariants as p;
ghost use Rattle.spl_code.specs.Instructions as i;
ghost use Rattle.spl_code.specs.Parts.{piece, pieces};
ghost use Rattle.spl_code.specs.Appends.{Appends};
ghost use Rattle.spl_operations.specs.Views.{is_instruction, is_operation, is_any_immediate, operations};

use hp_instr::{Instr, Op};
use spl_branch::{Code, Piece};
use std::alloc::AllocError;

/// Appends an instruction.
pub fn instruct(code: &mut Code, by: Instr) -> Result<(), AllocError>
    requires { is_instruction by ≡ true }
    ensures { OnOk result (Appends (piece (p.Do by)) code.old code.new) }
{
    code.put(Piece::Do(by))
}

/// Appends a word that lies in the code.
pub fn lay(code: &mut Code, word: u16) -> Result<(), AllocError>
    ensures { OnOk result (Appends (piece (p.Literal word)) code.old code.new) }
{
    code.put(Piece::Literal(word))
}

/// Appends a branch to a mark.
pub fn branch(code: &mut Code, by: Instr, mark: usize) -> Result<(), AllocError>
    requires formed { has_word by ≡ true }
    requires direct { is_direct by ≡ true }
    requires made { mark < length code.old.marks.items }
    ensures { OnOk result (Appends (piece (p.Branch by mark)) code.old code.new) }
{
    code.put(Piece::Branch { by, mark })
}

/// Appends a stack operation.
pub fn operate(code: &mut Code, op: Op) -> Result<(), AllocError>
    requires { is_operation op ≡ true }
    ensures { OnOk result (Appends (pieces (operations (op ∷ []))) code.old code.new) }
{
    instruct(
        code,
        Instr::Pair {
            left: op,
            right: Op::NOP,
        },
    )
}

/// Appends stack operations in order.
#[tactic(auto, using(crate::proofs::PutLemmas::walks))]
pub fn operate_all(code: &mut Code, ops: &[Op]) -> Result<(), AllocError>
    requires { list_all is_operation ops.now ≡ true }
    ensures { OnOk result (Appends (pieces (operations ops.now)) code.old code.new) }
{
    for op in ops {
        operate(code, *op)?;
    }
    Ok(())
}

/// Appends an instruction with an immediate number that may be any.
#[tactic(auto, using(crate::proofs::PutLemmas::immediate_is_instruction))]
pub fn immediate(code: &mut Code, which: u8, n: u8) -> Result<(), AllocError>
    requires { is_any_immediate which ≡ true }
    ensures { OnOk result (Appends (piece (i.immediate which n)) code.old code.new) }
{
    instruct(code, Instr::Immediate { which, n })
}

/// Appends a shift of the top word by so many places.
#[tactic(auto, using(crate::proofs::PutLemmas::shift_is_instruction))]
pub fn shift_by(code: &mut Code, kind: u8, count: u8) -> Result<(), AllocError>
    requires kind { kind < 6 }
    requires count { count < 64 }
    ensures { OnOk result (Appends (piece (i.shift kind count)) code.old code.new) }
{
    instruct(code, Instr::Shifted { kind, count })
}
