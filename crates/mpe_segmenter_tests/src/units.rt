//! Modules of units in short, finished of pieces.
use arrayvec::ArrayVec;
use hp_instr::{Instr, control, has_word};
use spl_branch::{Code, Entry, Module, Piece};
use spl_tree::Name;
use std::alloc::Global;
use std::test::Fail;

/// A unit in one segment. Each define is a call of itself, then each want is called, and literals of 9 follow, the main body at
/// the first.
#[derive(Clone, Copy)]
pub struct Unit {
    /// The segment's name, a letter.
    pub segment: u8,
    /// Procedures by their letters; subroutines by small ones.
    pub defines: &'static [u8],
    /// How many subroutines more, named `z`.
    pub more: u8,
    /// Procedures by their letters; intrinsics by the digits of their entries.
    pub wants: &'static [u8],
    pub main: bool,
    /// How many literals.
    pub fill: u16,
}

/// The name of this text.
fn text_name(text: &[u8]) -> Name {
    let mut name = ArrayVec::new();
    for byte in text {
        let _ = name.try_push(*byte);
    }
    Name { text: name }
}

/// The name of a letter.
pub fn name(letter: u8) -> Name {
    text_name(&[letter])
}

/// The name of an intrinsic, by the digit of its entry: PRINT, TERMINATE or QUIT.
fn gate_name(digit: u8) -> Name {
    match digit {
        b'1' => text_name(b"PRINT"),
        b'7' => text_name(b"TERMINATE"),
        _ => text_name(b"QUIT"),
    }
}

/// Sets a new mark.
fn mark(code: &mut Code) -> Result<usize, Fail> {
    let mark = code.fresh()?;
    if mark < code.marks.len() && !code.marks[mark] {
        code.put(Piece::Mark(mark))?;
    }
    Ok(mark)
}

/// Appends a call of a want or of an entry.
fn call(code: &mut Code, wanted: bool, index: usize) -> Result<(), Fail> {
    let by = Instr::Control {
        which: control::PCAL,
        n: 0,
    };
    if has_word(by) {
        code.put(Piece::Call { by, wanted, index })?;
    }
    Ok(())
}

/// Appends an entry, with a call of it as its first word.
fn define(code: &mut Code, letter: u8) -> Result<(), Fail> {
    let mark = mark(code)?;
    let index = code.entries.len();
    code.entries.push(Entry {
        name: name(letter),
        mark,
        callable: letter < b'a',
    })?;
    call(code, false, index)
}

/// Appends a call of a name that is wanted.
fn want(code: &mut Code, letter: u8) -> Result<(), Fail> {
    let gate = letter < b'A';
    let index = code.want(
        if gate {
            gate_name(letter)
        } else {
            name(letter)
        },
        gate,
    )?;
    call(code, true, index)
}

/// Appends the defines of a unit.
fn put_defines(code: &mut Code, unit: &Unit) -> Result<(), Fail> {
    for letter in unit.defines {
        define(code, *letter)?;
    }
    for _ in 0..unit.more {
        define(code, b'z')?;
    }
    Ok(())
}

/// Appends calls of what a unit wants.
fn put_wants(code: &mut Code, wants: &[u8]) -> Result<(), Fail> {
    for letter in wants {
        want(code, *letter)?;
    }
    Ok(())
}

/// Appends literals, the main body at the first of them, if it is here.
fn put_rest(code: &mut Code, main: bool, fill: u16) -> Result<(), Fail> {
    let here = mark(code)?;
    if main {
        code.main = Some(here);
    }
    for _ in 0..fill {
        code.put(Piece::Literal(9))?;
    }
    Ok(())
}

/// The module of a unit.
fn module_of(alloc: Global, unit: &Unit) -> Result<Module, Fail> {
    let mut code = Code::new(alloc, name(unit.segment), Vec::new(alloc), None);
    put_defines(&mut code, unit)?;
    put_wants(&mut code, unit.wants)?;
    put_rest(&mut code, unit.main, unit.fill)?;
    if code.is_complete() {
        Ok(code.finish(alloc)?)
    } else {
        Err("a mark is not set")?
    }
}

/// The modules of units.
pub fn modules_of(alloc: Global, units: &[Unit]) -> Result<Vec<Module>, Fail> {
    let mut modules = Vec::new(alloc);
    for unit in units {
        modules.push(module_of(alloc, unit)?)?;
    }
    Ok(modules)
}
