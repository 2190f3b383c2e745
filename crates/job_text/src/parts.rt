//! What a line adds to programs and sessions.
ghost use Rattle.std.specs.Prelude.{◌≡◌, ◌<◌, ◌++◌, ◌∷◌, [], map, length, OnOk, IfSome, true};
ghost use Rattle.std.specs.List.{position};
ghost use Rattle.job_lines.specs.Lines.{same};
ghost use Rattle.job_text.specs.States as state;
ghost use Rattle.job_lines.specs.Names.{is_program_name};
ghost use Rattle.job_lines.specs.Sizes.{sizes_fit};
ghost use Rattle.job_text.specs.Views.{text_value, seat_value};

use crate::job::Text;
use hp_session::Line;
use job_lines::{Size, Sizes, same};
use mpe_session::Seat;
use spl_tree::{Chars, Name};
use std::alloc::{AllocError, Global};

/// A name of these bytes.
#[tactic(auto, using(crate::proofs::PartLemmas::names))]
fn name_of(bytes: &[u8]) -> Name
    requires { is_program_name bytes.now ≡ true }
    ensures { result.text.items ≡ bytes.now }
{
    Name::new(bytes)
}

/// The place of the program with this name, if there is one.
fn position_of(programs: &[Text], name: &[u8]) -> Option<usize>
    ensures { result ≡ position (λ p. same p.name.text.items name.now) programs.now }
{
    programs
        .iter()
        .position(|program| same(program.name.text.as_slice(), name))
}

/// The number of the program with this name, if there is one.
#[tactic(auto, using(crate::proofs::PartLemmas::numbers))]
pub(crate) fn program_number(programs: &[Text], name: &[u8]) -> Option<usize>
    ensures number { result ≡ state.program_number name.now (map text_value programs.now) }
    ensures there { IfSome result (λ i. i < length programs.now) }
{
    position_of(programs, name)
}

/// A program with no unit yet.
pub(crate) fn new_program(alloc: Global, name: &[u8]) -> Text
    requires { is_program_name name.now ≡ true }
    ensures { text_value result ≡ record { name = name.now; units = [] } }
{
    Text {
        name: name_of(name),
        units: Vec::new(alloc),
    }
}

/// Begins a unit of the last program.
pub(crate) fn begin_unit(alloc: Global, programs: &mut [Text]) -> Result<(), AllocError>
    ensures { OnOk result (map text_value programs.new ≡ state.at_last state.with_unit (map text_value programs.old)) }
{
    match programs.last_mut() {
        None => Ok(()),
        Some(program) => {
            program.units.push(Chars {
                bytes: Vec::new(alloc),
            })?;
            Ok(())
        }
    }
}

/// Appends a line to a unit's text, with its line feed.
fn append_line(unit: &mut Chars, line: &[u8]) -> Result<(), AllocError>
    ensures { OnOk result (unit.new.bytes.items ≡ unit.old.bytes.items ++ line.now ++ 10 ∷ []) }
{
    unit.bytes.extend_from_slice(line)?;
    unit.bytes.push(b'\n')?;
    Ok(())
}

/// Appends a line to the last unit.
fn append_to_last(units: &mut [Chars], line: &[u8]) -> Result<(), AllocError>
    ensures { OnOk result (map (λ u. u.bytes.items) units.new ≡ state.at_last (λ u. u ++ line.now ++ 10 ∷ []) (map (λ u. u.bytes.items) units.old)) }
{
    match units.last_mut() {
        None => Ok(()),
        Some(unit) => append_line(unit, line),
    }
}

/// Appends a line to the last unit of a program.
fn append_to_program(program: &mut Text, line: &[u8]) -> Result<(), AllocError>
    ensures { OnOk result (text_value program.new ≡ state.with_unit_line line.now (text_value program.old)) }
{
    append_to_last(&mut program.units, line)
}

/// Appends a line to the last unit of the last program.
pub(crate) fn append_unit_line(programs: &mut [Text], line: &[u8]) -> Result<(), AllocError>
    ensures { OnOk result (map text_value programs.new ≡ state.at_last (state.with_unit_line line.now) (map text_value programs.old)) }
{
    match programs.last_mut() {
        None => Ok(()),
        Some(program) => append_to_program(program, line),
    }
}

/// Appends a terminal line to a session.
fn append_typed(alloc: Global, seat: &mut Seat, line: &[u8]) -> Result<(), AllocError>
    ensures { OnOk result (seat_value seat.new ≡ state.with_terminal_line line.now (seat_value seat.old)) }
{
    seat.lines.push(Line {
        bytes: Vec::from_slice(alloc, line)?,
    })?;
    Ok(())
}

/// Appends a terminal line to the last session.
pub(crate) fn append_terminal_line(
    alloc: Global,
    seats: &mut [Seat],
    line: &[u8],
) -> Result<(), AllocError>
    ensures { OnOk result (map seat_value seats.new ≡ state.at_last (state.with_terminal_line line.now) (map seat_value seats.old)) }
{
    match seats.last_mut() {
        None => Ok(()),
        Some(seat) => append_typed(alloc, seat, line),
    }
}

/// A session as it begins.
pub(crate) fn opened(alloc: Global, program: u8, sizes: Sizes) -> Seat
    requires { sizes_fit sizes ≡ true }
    ensures { seat_value result ≡ state.opened program sizes }
{
    Seat {
        program,
        stack: sizes.value(Size::Stack) as u16,
        extra: sizes.value(Size::Extra) as u16,
        room: sizes.value(Size::Print) as u32,
        lines: Vec::new(alloc),
    }
}
