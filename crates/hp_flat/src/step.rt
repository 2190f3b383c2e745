//! One step: the word at P is fetched, and its row decides.
ghost use Rattle.std.specs.Prelude.{◌≡◌, IsTrue, true, length};
ghost use Rattle.hp_instr.specs.Given.{has_word};
ghost use Rattle.hp_instr.specs.declared.instruction.Instr.TheVariants.{Control};
ghost use Rattle.hp_word.specs.declared.endings.Ending.TheVariants.{Running};
ghost use Rattle.hp_session.specs.State.{Does};
ghost use Rattle.hp_session.specs.Keeping.{Continues, is_trapped};
ghost use Rattle.hp_flat.specs.Step.{at_left, pair_row, control_row, word_row, row, outcome, step};
ghost use Rattle.hp_program.specs.Programs.{segments_of};

use hp_call_rows::{call, call_subroutine, exit, leave_subroutine};
use hp_instr::{Instr, Op, control, decode};
use hp_memory_rows::{
    branch, branch_on_code, load_code, move_element, step_loop, test_loop, with_memory_operand,
};
use hp_program::{Program, fetch};
use hp_session::Session;
use hp_stack_rows::operate;
use hp_word::{Ending, Trap};
use hp_word_rows::{count_words, shift_top, short_branch, with_immediate};

/// One operation of a pair.
#[tactic(auto, unfolding(crate::specs::Step::pair_row))]
fn pair(session: &mut Session, left: Op, right: Op) -> Result<(), Trap>
    ensures { Does (pair_row left right session.old) session.old result session.new }
{
    if session.regs.right {
        operate(session, right)?;
        session.pass();
    } else if right.code == 0 {
        operate(session, left)?;
        session.pass();
    } else {
        operate(session, left)?;
        session.regs.right = true;
    }
    Ok(())
}

/// The row of a code of major 3.
#[tactic(auto, unfolding(crate::specs::Step::control_row))]
fn control_instruction(
    session: &mut Session,
    program: &Program,
    which: u8,
    n: u8,
) -> Result<(), Trap>
    ensures { Does (control_row (segments_of program.now) which n session.old) session.old result session.new }
{
    match which {
        control::PCAL => call(session, program, n),
        control::EXIT => exit(session, program, n),
        control::SXIT => leave_subroutine(session, n),
        control::SCAL => call_subroutine(session, program, n),
        4..=8 => {
            count_words(session, which, n)?;
            session.pass();
            Ok(())
        }
        _ => move_element(session, program, which, n),
    }
}

/// What an instruction does that goes on past its word.
#[tactic(auto, unfolding(crate::specs::Step::word_row), using(hp_instr::proofs::FieldRanges::shifted_fields))]
fn whole_word(session: &mut Session, program: &Program, instruction: Instr) -> Result<(), Trap>
    requires { IsTrue (has_word instruction) }
    ensures { Does (word_row (segments_of program.now) instruction session.old) session.old result session.new }
{
    match instruction {
        Instr::Shifted { kind, count } => shift_top(session, kind, count)?,
        Instr::Short { test, back, d } => return short_branch(session, test, back, d),
        Instr::Immediate { which, n } => with_immediate(session, which, n)?,
        Instr::Control { which, n } => return control_instruction(session, program, which, n),
        Instr::Memory {
            major,
            second,
            x,
            i,
            mode,
        } => with_memory_operand(session, major, second, mode, i, x)?,
        Instr::LoadCode { back, d } => load_code(session, program, back, d)?,
        Instr::Branch { i, back, d } => return branch(session, program, i, back, d),
        Instr::OnCode { mask, back, d } => return branch_on_code(session, mask, back, d),
        Instr::Loop {
            modify: false,
            back,
            d,
        } => return test_loop(session, back, d),
        Instr::Loop {
            modify: true,
            back,
            d,
        } => return step_loop(session, back, d),
        Instr::Pair { .. } | Instr::Illegal(_) => return Err(Trap::Illegal),
    }
    session.pass();
    Ok(())
}

/// A word that is done whole, with R cleared; a trap leaves R.
fn word_at_left(session: &mut Session, program: &Program, instruction: Instr) -> Result<(), Trap>
    requires { IsTrue (has_word instruction) }
    ensures { Does (word_row (segments_of program.now) instruction (at_left session.old)) session.old result session.new }
{
    let right = session.regs.right;
    session.regs.right = false;
    let answer = whole_word(session, program, instruction);
    if answer.is_err() {
        session.regs.right = right;
    }
    answer
}

/// The row of an instruction.
#[tactic(auto, unfolding(crate::specs::Step::row))]
fn row(session: &mut Session, program: &Program, instruction: Instr) -> Result<(), Trap>
    requires { IsTrue (has_word instruction) }
    ensures { Does (row (segments_of program.now) instruction session.old) session.old result session.new }
{
    match instruction {
        Instr::Pair { left, right } => pair(session, left, right),
        _ => word_at_left(session, program, instruction),
    }
}

/// What the word at P does.
#[tactic(auto, unfolding(crate::specs::Step::outcome))]
fn act(session: &mut Session, program: &Program) -> Result<(), Trap>
    ensures { Does (outcome (segments_of program.now) session.old) session.old result session.new }
{
    match fetch(program, session.regs.seg, session.regs.p) {
        None => Err(Trap::CodeBounds),
        Some(word) => row(session, program, decode(word)),
    }
}

/// One step.
#[tactic(auto, unfolding(crate::specs::Step::step))]
pub(crate) fn make_step(session: &mut Session, program: &Program)
    requires { session.old.ending ≡ Running }
    ensures value { session.new ≡ step (segments_of program.now) session.old }
    ensures kept { Continues (length (segments_of program.now)) session.old session.new }
    ensures trap { is_trapped session.new.ending ≡ true → session.new ≡ record session.old { ending = session.new.ending } }
{
    if let Err(trap) = act(session, program) {
        session.ending = Ending::Trapped(trap);
    }
}
