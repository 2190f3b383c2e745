//! What stands before the statements of a body, and behind them.
ghost use Rattle.std.specs.Prelude.{◌≡◌, ◌≤◌, ◌%◌, [], true, length, OnOk, IfOk, map};
ghost use Rattle.spl_tree.specs.DeclarationTrees as decl;
ghost use Rattle.spl_tree.specs.Spells as view;
ghost use Rattle.spl_tree.specs.Spells.{heading_tree};
ghost use Rattle.spl_sorts.specs.spl_meaning.Names as n;
ghost use Rattle.spl_sorts.specs.spl_meaning.Names.{find};
ghost use Rattle.spl_sorts.specs.spl_meaning.Pending as pending;
ghost use Rattle.spl_sorts.specs.Tables.{table_of};
ghost use Rattle.spl_initials.specs.Cells.{found_in, initials_by};
ghost use Rattle.spl_branch.specs.Pieces.{is_settable};
ghost use Rattle.spl_branch.specs.declared.pieces.Piece.TheVariants as p;
ghost use Rattle.spl_body_code.specs.spl_code.Parts.{pieces, call_wanted};
ghost use Rattle.spl_body_code.specs.spl_code.Appends.{Appends};
ghost use Rattle.spl_body_code.specs.Cells.{initials_set};
ghost use Rattle.spl_body_code.specs.Frames as frames;
ghost use Rattle.spl_body_code.specs.Bodies as bodies;
ghost use Rattle.spl_body_code.specs.Marked.{Marked};
ghost use Rattle.spl_gen_body.specs.Procedures.{frame_for};

use crate::cells::set_cells;
use crate::frames::{count, grant, zero};
use crate::initials::set_initials;
use hp_instr::{Instr, control, immediate};
use spl_branch::{Code, Piece};
use spl_initials::spl_lists::{formals, parameters};
use spl_initials::spl_places::{Datum, ListPlaces};
use spl_initials::spl_spots::plus;
use spl_operations::instruct;
use spl_rooms::Room;
use spl_rooms::spl_formals::formals_words;
use spl_sorts::Table;
use spl_tree::{Decl, Heading, Name};
use std::alloc::{AllocError, Global};

/// The number of SPLT, which enters split mode.
const SPLT: u8 = 1;

/// The number of JOIN, which leaves it.
const JOIN: u8 = 2;

/// A procedure with what its frame is made of.
#[derive(Clone, Copy, Debug)]
pub struct Procedure<'t> {
    /// What its unit declares up to its heading.
    pub outer: &'t Table,
    pub heading: &'t Heading,
    pub declarations: &'t [Decl],
    /// The items of its declarations, in order.
    pub items: &'t [Datum],
    /// Where these stand.
    pub places: &'t ListPlaces,
    pub room: Room,
}

/// Sets a mark, which was made, at the end.
fn set_mark(code: &mut Code, mark: usize) -> Result<(), AllocError>
    requires { is_settable code.old.marks.items (p.Mark mark) ≡ true }
    ensures { OnOk result (Marked mark [] code.old code.new) }
{
    code.put(Piece::Mark(mark))
}

/// Appends the change to split mode or out of it.
#[tactic(auto, unfolding(hp_instr::specs::Given::has_word, hp_instr::specs::Fields::is_immediate))]
fn enter_mode(code: &mut Code, split: bool) -> Result<(), AllocError>
    ensures { OnOk result (Appends (pieces (bodies.mode_entered split)) code.old code.new) }
{
    if split {
        instruct(
            code,
            Instr::Immediate {
                which: immediate::WINDOW,
                n: SPLT,
            },
        )
    } else {
        Ok(())
    }
}

/// Appends the change out of split mode, where a procedure is split.
#[tactic(auto, unfolding(hp_instr::specs::Given::has_word, hp_instr::specs::Fields::is_immediate))]
fn leave_mode(code: &mut Code, split: bool) -> Result<(), AllocError>
    ensures { OnOk result (Appends (pieces (bodies.mode_left split)) code.old code.new) }
{
    if split {
        instruct(
            code,
            Instr::Immediate {
                which: immediate::WINDOW,
                n: JOIN,
            },
        )
    } else {
        Ok(())
    }
}

/// Appends what stores the initial values of a procedure's items.
fn set_values(alloc: Global, code: &mut Code, of: &Procedure<'_>) -> Result<(), AllocError>
    ensures { OnOk result (Appends (pieces (initials_set (frame_for of.now).initials)) code.old code.new) }
{
    let formals = formals(alloc, of.heading)?;
    let mut here = parameters(alloc, &formals)?;
    set_initials(alloc, code, of.outer, &mut here, of.places, of.declarations)
}

/// Appends what makes the frame of a procedure.
#[tactic(auto, using(spl_operations::proofs::PutLemmas::pieces_then))]
fn make_frame(alloc: Global, code: &mut Code, of: &Procedure<'_>) -> Result<(), AllocError>
    ensures { OnOk result (Appends (pieces (bodies.procedure_entered (frame_for of.now))) code.old code.new) }
{
    let words = of.room.locals;
    grant(code, plus(words, of.room.depth)?)?;
    zero(code, words)?;
    set_cells(code, of.places, of.items)?;
    set_values(alloc, code, of)?;
    enter_mode(code, of.heading.split)
}

/// Sets the mark of a procedure's entry, and appends what makes its frame: room, local words of zero, cells, initial
/// values, and split mode where it is split.
#[tactic(auto, using(crate::proofs::MarkedLemmas::marked_then))]
pub fn enter_procedure(
    alloc: Global,
    code: &mut Code,
    entry: usize,
    of: &Procedure<'_>,
) -> Result<(), AllocError>
    requires { is_settable code.old.marks.items (p.Mark entry) ≡ true }
    ensures { OnOk result (Marked entry (bodies.procedure_entered (frame_for of.now)) code.old code.new) }
{
    set_mark(code, entry)?;
    make_frame(alloc, code, of)
}

/// The words of a heading's parameters, as a word's right half has them.
fn parameter_words(alloc: Global, heading: &Heading) -> Result<u8, AllocError>
    ensures { IfOk result (λ words. words ≡ pending.formals_words (n.formals_of (heading_tree heading.now)) % 256) }
{
    let formals = formals(alloc, heading)?;
    Ok((formals_words(&formals)? % 256) as u8)
}

/// Sets the mark to which RETURN leads in a procedure, and appends the way out: whole mode, and the exit, which deletes
/// the parameters.
#[tactic(auto, using(crate::proofs::MarkedLemmas::marked_then, spl_operations::proofs::PutLemmas::pieces_then))]
pub fn leave_procedure(
    alloc: Global,
    code: &mut Code,
    leave: usize,
    heading: &Heading,
) -> Result<(), AllocError>
    requires { is_settable code.old.marks.items (p.Mark leave) ≡ true }
    ensures { OnOk result (Marked leave (bodies.procedure_left heading.now.split (pending.formals_words (n.formals_of (heading_tree heading.now)))) code.old code.new) }
{
    let words = parameter_words(alloc, heading)?;
    set_mark(code, leave)?;
    leave_mode(code, heading.split)?;
    count(code, control::EXIT, words)
}

/// Sets the mark of a subroutine's or a main body's entry, and appends what grants its room.
#[tactic(auto, using(crate::proofs::MarkedLemmas::marked_then))]
fn enter(code: &mut Code, entry: usize, depth: u64) -> Result<(), AllocError>
    requires { is_settable code.old.marks.items (p.Mark entry) ≡ true }
    ensures { OnOk result (Marked entry (frames.granted depth) code.old code.new) }
{
    set_mark(code, entry)?;
    grant(code, depth)
}

/// Sets the mark of a subroutine's entry, and appends what grants its room.
pub fn enter_subroutine(code: &mut Code, entry: usize, room: Room) -> Result<(), AllocError>
    requires { is_settable code.old.marks.items (p.Mark entry) ≡ true }
    ensures { OnOk result (Marked entry (frames.granted room.depth) code.old code.new) }
{
    enter(code, entry, room.depth)
}

/// Sets the mark to which RETURN leads in a subroutine, and appends the exit, which deletes the parameters.
#[tactic(auto, using(crate::proofs::MarkedLemmas::marked_then))]
pub fn leave_subroutine(
    alloc: Global,
    code: &mut Code,
    leave: usize,
    heading: &Heading,
) -> Result<(), AllocError>
    requires { is_settable code.old.marks.items (p.Mark leave) ≡ true }
    ensures { OnOk result (Marked leave (bodies.subroutine_left (pending.formals_words (n.formals_of (heading_tree heading.now)))) code.old code.new) }
{
    let words = parameter_words(alloc, heading)?;
    set_mark(code, leave)?;
    count(code, control::SXIT, words)
}

/// Sets the mark of the main body's entry, and appends what grants its room.
pub fn enter_main(code: &mut Code, entry: usize, room: Room) -> Result<(), AllocError>
    requires { is_settable code.old.marks.items (p.Mark entry) ≡ true }
    ensures { OnOk result (Marked entry (frames.granted room.depth) code.old code.new) }
{
    enter(code, entry, room.depth)
}

/// Appends the call of an intrinsic, which is wanted from then on.
#[tactic(auto, unfolding(hp_instr::specs::Given::has_word, hp_instr::specs::Fields::is_control))]
fn call_gate(code: &mut Code, name: &[u8]) -> Result<(), AllocError>
    requires { length name.now ≤ 15 }
    ensures { OnOk result (Appends (call_wanted name.now true) code.old code.new) }
{
    let index = code.want(Name::new(name), true)?;
    code.put(Piece::Call {
        by: Instr::Control {
            which: control::PCAL,
            n: 0,
        },
        wanted: true,
        index,
    })
}

/// Appends the end of a main body: the call of TERMINATE.
pub fn leave_main(code: &mut Code) -> Result<(), AllocError>
    ensures { OnOk result (Appends bodies.main_left code.old code.new) }
{
    call_gate(code, b"TERMINATE")
}
