//! Single pieces of statements, appended to a code.
ghost use Rattle.std.specs.Prelude.{◌≡◌, ◌<◌, ◌∷◌, [], true, false, if◌then◌else◌, length, OnOk, IfOk};
ghost use Rattle.hp_instr.specs.Fields.{is_control};
ghost use Rattle.spl_branch.specs.declared.pieces.Piece.TheVariants as p;
ghost use Rattle.spl_statement_code.specs.spl_code.Parts.{piece, nothing};
ghost use Rattle.spl_statement_code.specs.spl_code.Appends.{Appends};
ghost use Rattle.spl_statement_code.specs.Instructions as i;
ghost use Rattle.spl_statement_code.specs.Statements.{idle};
ghost use Rattle.spl_stored.specs.Grown.{Grown};

use hp_instr::{Instr, control};
use spl_branch::{Code, Piece};
use spl_operations::{branch, instruct};
use spl_tree::At;
use std::alloc::AllocError;

/// Appends the start of a statement.
pub fn begin(code: &mut Code, at: At) -> Result<(), AllocError>
    ensures { OnOk result (Appends (piece (p.Begin at)) code.old code.new) }
{
    code.put(Piece::Begin(at))
}

/// Appends an instruction with a number of words, or with a choice.
#[tactic(auto, unfolding(hp_instr::specs::Given::has_word))]
pub fn control_by(code: &mut Code, which: u8, n: u8) -> Result<(), AllocError>
    requires { is_control which n ≡ true }
    ensures { OnOk result (Appends (piece (i.control which n)) code.old code.new) }
{
    instruct(code, Instr::Control { which, n })
}

/// Appends SUBS of so many words.
#[tactic(auto, unfolding(hp_instr::specs::Fields::is_control))]
pub fn subtract_words(code: &mut Code, n: u8) -> Result<(), AllocError>
    ensures { OnOk result (Appends (piece (i.SUBS n)) code.old code.new) }
{
    control_by(code, control::SUBS, n)
}

/// Appends the word of a statement that does nothing of its own.
pub fn idle(code: &mut Code) -> Result<(), AllocError>
    ensures { OnOk result (Appends idle code.old code.new) }
{
    subtract_words(code, 0)
}

/// Appends MTBA to a mark, or TBA where nothing is added first.
#[tactic(auto, unfolding(hp_instr::specs::Given::has_word))]
pub fn count_to(code: &mut Code, modify: bool, mark: usize) -> Result<(), AllocError>
    requires { mark < length code.old.marks.items }
    ensures { OnOk result (Appends (piece (if modify then i.MTBA mark else i.TBA mark)) code.old code.new) }
{
    branch(
        code,
        Instr::Loop {
            modify,
            back: false,
            d: 0,
        },
        mark,
    )
}

/// Makes a mark.
pub fn new_mark(code: &mut Code) -> Result<usize, AllocError>
    ensures mark { IfOk result (λ l. l ≡ length code.old.marks.items) }
    ensures made { OnOk result (Grown (false ∷ []) [] nothing code.old code.new) }
{
    code.fresh()
}
