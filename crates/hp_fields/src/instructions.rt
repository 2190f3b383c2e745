//! The instructions of the group, each by its code.
ghost use Rattle.std.specs.Prelude.{◌≡◌, IsTrue};
ghost use Rattle.hp_instr.specs.declared.groups.Group.TheVariants.{Field};
ghost use Rattle.hp_instr.specs.declared.instruction.Instr.TheVariants.{Immediate};
ghost use Rattle.hp_instr.specs.Given.{has_word};
ghost use Rattle.hp_instr.specs.Groups.{group};
ghost use Rattle.hp_tos.specs.StackView.{seen};
ghost use Rattle.hp_word_rows.specs.WordRows.{count_row, immediate_row};
ghost use Rattle.hp_rows.specs.Performs.{Performs};
ghost use Rattle.hp_fields.specs.FieldRows.{field_act, field_row};
ghost use Rattle.hp_fields.specs.FieldUses.{count_uses, field_uses, immediate_uses};

use crate::counts::{drop_top, have_room, have_room_for_top, push_zeros};
use crate::fields::{put_field, take_field};
use crate::numbers::{
    add_number, bits_of_both_with, bits_of_either_with, bits_of_one_with, compare_with,
    divide_number, join, less, minus, multiply_number, push_number, set_x, split, subtract_number,
};
use crate::shifts::shift_top;
use hp_instr::{Instr, control, immediate};
use hp_rows::pass;
use hp_session::Regs;
use hp_tos::Stack;
use hp_word::Trap;

/// What a code of major 2 does with its number.
#[tactic(auto, unfolding(hp_word_rows::specs::WordRows::immediate_row, crate::specs::FieldUses::immediate_uses), using(hp_instr::proofs::FieldRanges::exf_field, hp_instr::proofs::FieldRanges::dpf_field))]
fn with_number(regs: &mut Regs, stack: &mut Stack, which: u8, n: u8) -> Result<(), Trap>
    requires { IsTrue (has_word (Immediate which n)) }
    ensures { Performs (immediate_row which n) (immediate_uses which) regs.old (seen stack.old) result regs.new (seen stack.new) }
{
    match which {
        immediate::WINDOW => if n == 1 {
            split(regs, stack)
        } else {
            join(regs, stack)
        },
        immediate::LDI => push_number(regs, stack, n as u16),
        immediate::LDXI => set_x(regs, stack, n as u16),
        immediate::CMPI => compare_with(regs, stack, n as u16),
        immediate::ADDI => add_number(regs, stack, n as u16),
        immediate::SUBI => subtract_number(regs, stack, n as u16),
        immediate::MPYI => multiply_number(regs, stack, n as u16),
        immediate::DIVI => divide_number(regs, stack, n as u16),
        immediate::LDNI => push_number(regs, stack, minus(n)),
        immediate::LDXN => set_x(regs, stack, minus(n)),
        immediate::CMPN => compare_with(regs, stack, minus(n)),
        immediate::EXF => take_field(regs, stack, n),
        immediate::DPF => put_field(regs, stack, n),
        immediate::ANDI => bits_of_both_with(regs, stack, n as u16),
        immediate::ORI => bits_of_either_with(regs, stack, n as u16),
        _ => bits_of_one_with(regs, stack, n as u16),
    }
}

/// What a code 4 to 8 of major 3 does with its number.
#[tactic(auto, unfolding(hp_word_rows::specs::WordRows::count_row, hp_word_rows::specs::WordRows::roomy, crate::specs::FieldUses::count_uses))]
fn count_words(regs: &mut Regs, stack: &mut Stack, which: u8, n: u8) -> Result<(), Trap>
    ensures { Performs (count_row which n) (count_uses which n) regs.old (seen stack.old) result regs.new (seen stack.new) }
{
    match which {
        control::ADXI => set_x(regs, stack, regs.x.wrapping_add(n as u16)),
        control::SBXI => set_x(regs, stack, less(regs.x, n)),
        control::ROOM => if n == 0 {
            have_room_for_top(regs, stack)
        } else {
            have_room(regs, stack, n)
        },
        control::ADDS => push_zeros(regs, stack, n),
        _ => drop_top(regs, stack, n),
    }
}

/// What an instruction of the group does, but for going on.
#[tactic(auto, unfolding(crate::specs::FieldRows::field_act, crate::specs::FieldUses::field_uses), using(hp_instr::proofs::FieldRanges::shifted_fields))]
fn act(i: Instr, regs: &mut Regs, stack: &mut Stack) -> Result<(), Trap>
    requires instruction { IsTrue (has_word i) }
    requires group { group i ≡ Field }
    ensures { Performs (field_act i) (field_uses i) regs.old (seen stack.old) result regs.new (seen stack.new) }
{
    match i {
        Instr::Shifted { kind, count } => shift_top(regs, stack, kind, count),
        Instr::Immediate { which, n } => with_number(regs, stack, which, n),
        Instr::Control { which, n } => count_words(regs, stack, which, n),
        _ => Err(Trap::Illegal),
    }
}

/// Does an instruction of the group on a stack of which some top words may stand in registers, and goes on past its word.
///
/// A trap is the one that the instruction's row gives. It leaves the list of words, all registers and the mode as they were;
/// registers of the stack may have been filled by then. Takes no memory.
pub fn field_op(i: Instr, regs: &mut Regs, stack: &mut Stack) -> Result<(), Trap>
    requires instruction { IsTrue (has_word i) }
    requires group { group i ≡ Field }
    ensures { Performs (field_row i) (field_uses i) regs.old (seen stack.old) result regs.new (seen stack.new) }
{
    act(i, regs, stack)?;
    pass(regs);
    Ok(())
}
