//! Modules of pieces, with words worked by hand.
use arrayvec::ArrayVec;
use hp_instr::{Instr, Op, control, has_word, short};
use spl_branch::{Code, Entry, FixKind, Module, Piece, Start};
use spl_tree::{At, Name};
use std::alloc::Global;
use std::test::Fail;

/// Pieces in short: an operation, so many literals, BRE and BR to a mark, a mark, an offset, a call, a beginning.
#[derive(Clone, Copy)]
enum Shape {
    Op(Op),
    Fill(usize),
    Bre(usize),
    Br(usize),
    Mark(usize),
    Place(usize),
    Call,
    Begin,
}

static PLACE: At = At {
    unit: 1,
    line: 2,
    column: 3,
};

fn name() -> Name {
    let mut text = ArrayVec::new();
    let _ = text.try_push(b'F');
    Name { text }
}

/// Appends so many literals.
fn fill(code: &mut Code, count: usize) -> Result<(), Fail> {
    for _ in 0..count {
        code.put(Piece::Literal(9))?;
    }
    Ok(())
}

/// Appends a direct branch to a mark, where that was made.
fn branch(code: &mut Code, mark: usize, br: bool) -> Result<(), Fail> {
    let bre = Instr::Short {
        test: short::BRE,
        back: false,
        d: 0,
    };
    let far = Instr::Branch {
        i: false,
        back: false,
        d: 0,
    };
    if mark < code.marks.len() && has_word(bre) && has_word(far) {
        if br {
            code.put(Piece::Branch { by: far, mark })?;
        } else {
            code.put(Piece::Branch { by: bre, mark })?;
        }
    }
    Ok(())
}

/// Appends a call of the name that is wanted.
fn call(code: &mut Code) -> Result<(), Fail> {
    let index = code.want(name(), false)?;
    let by = Instr::Control {
        which: control::PCAL,
        n: 0,
    };
    if has_word(by) {
        code.put(Piece::Call {
            by,
            wanted: true,
            index,
        })?;
    }
    Ok(())
}

/// Appends a stack operation.
fn operate(code: &mut Code, op: Op) -> Result<(), Fail> {
    let pair = Instr::Pair {
        left: op,
        right: Op::NOP,
    };
    if has_word(pair) && op.code != 0 {
        code.put(Piece::Do(pair))?;
    }
    Ok(())
}

/// Appends what a shape is short for.
fn append(code: &mut Code, shape: Shape) -> Result<(), Fail> {
    match shape {
        Shape::Op(op) => operate(code, op)?,
        Shape::Fill(count) => fill(code, count)?,
        Shape::Bre(mark) => branch(code, mark, false)?,
        Shape::Br(mark) => branch(code, mark, true)?,
        Shape::Mark(mark) => {
            if mark < code.marks.len() && !code.marks[mark] {
                code.put(Piece::Mark(mark))?;
            }
        }
        Shape::Place(mark) => {
            if mark < code.marks.len() {
                code.put(Piece::Place(mark))?;
            }
        }
        Shape::Call => call(code)?,
        Shape::Begin => code.put(Piece::Begin(PLACE))?,
    }
    Ok(())
}

/// A code with two marks, an entry at the first and the main body at the second.
fn start(alloc: Global) -> Result<Code, Fail> {
    let entries = vec![in alloc;
        Entry {
            name: name(),
            mark: 0,
            callable: true
        },
    ]?;
    let mut code = Code::new(alloc, name(), entries, Some(1));
    code.fresh()?;
    code.fresh()?;
    Ok(code)
}

/// The module of these shapes.
fn module_of(alloc: Global, shapes: &[Shape]) -> Result<Module, Fail> {
    let mut code = start(alloc)?;
    for shape in shapes {
        append(&mut code, *shape)?;
    }
    if code.is_complete() {
        Ok(code.finish(alloc)?)
    } else {
        Err("a mark is not set")?
    }
}

#[test]
fn each_piece_has_its_word(rt: HostRuntime) -> Result<(), Fail> {
    let made = module_of(
        rt.alloc(),
        &[
            Shape::Op(Op::ADD),
            Shape::Op(Op::DEL),
            Shape::Mark(0),
            Shape::Op(Op::DEL),
            Shape::Begin,
            Shape::Op(Op::ADD),
            Shape::Bre(0),
            Shape::Fill(1),
            Shape::Place(1),
            Shape::Mark(1),
            Shape::Call,
            Shape::Call,
        ],
    )?;
    let words: [u16; 8] = [
        0o002040, 0o004000, 0o002000, 0o011642, 9, 6, 0o030000, 0o030000,
    ];
    assert_eq!(rt; made.words.as_slice(), words.as_slice());
    assert_eq!(rt; made.size, 8);
    assert_eq!(rt; made.wants.len(), 1);
    assert_eq!(rt; made.main, Some(6));
    assert_eq!(rt; made.defines.iter().map(|d| d.offset).max(), Some(1));
    assert_eq!(rt;
        made.starts.as_slice(),
        [Start {
            at: PLACE,
            offset: 2
        }]
        .as_slice()
    );
    assert_eq!(rt; made.fixes.len(), 3);
    assert!(rt;
        made.fixes.iter().any(|f| f.offset == 5 && f.kind == FixKind::Place && f.index == 6)
    );
    assert!(rt;
        made.fixes.iter().any(|f| f.offset == 7 && f.kind == FixKind::Want && f.index == 0)
    );
    Ok(())
}

#[test]
fn a_branch_is_long_where_it_must(rt: HostRuntime) -> Result<(), Fail> {
    let nothing = Shape::Fill(0);
    let ends = Shape::Mark(1);
    let cases: [([Shape; 6], u32); 12] = [
        // forward, from the first word to the mark
        (
            [
                Shape::Bre(0),
                Shape::Fill(30),
                Shape::Mark(0),
                ends,
                nothing,
                nothing,
            ],
            31,
        ),
        (
            [
                Shape::Bre(0),
                Shape::Fill(31),
                Shape::Mark(0),
                ends,
                nothing,
                nothing,
            ],
            35,
        ),
        (
            [
                Shape::Br(0),
                Shape::Fill(254),
                Shape::Mark(0),
                ends,
                nothing,
                nothing,
            ],
            255,
        ),
        (
            [
                Shape::Br(0),
                Shape::Fill(255),
                Shape::Mark(0),
                ends,
                nothing,
                nothing,
            ],
            257,
        ),
        // back
        (
            [
                Shape::Mark(0),
                Shape::Fill(31),
                Shape::Bre(0),
                ends,
                nothing,
                nothing,
            ],
            32,
        ),
        (
            [
                Shape::Mark(0),
                Shape::Fill(32),
                Shape::Bre(0),
                ends,
                nothing,
                nothing,
            ],
            36,
        ),
        (
            [
                Shape::Mark(0),
                Shape::Fill(255),
                Shape::Br(0),
                ends,
                nothing,
                nothing,
            ],
            256,
        ),
        (
            [
                Shape::Mark(0),
                Shape::Fill(256),
                Shape::Br(0),
                ends,
                nothing,
                nothing,
            ],
            258,
        ),
        // the second branch reaches, or not; its long form pushes the first one's mark out of reach
        (
            [
                Shape::Bre(0),
                Shape::Bre(1),
                Shape::Fill(29),
                Shape::Mark(0),
                Shape::Fill(1),
                ends,
            ],
            32,
        ),
        (
            [
                Shape::Bre(0),
                Shape::Bre(1),
                Shape::Fill(29),
                Shape::Mark(0),
                Shape::Fill(2),
                ends,
            ],
            39,
        ),
        // the greatest module, and one that is oversized
        (
            [
                Shape::Mark(0),
                ends,
                Shape::Fill(16383),
                nothing,
                nothing,
                nothing,
            ],
            16383,
        ),
        (
            [
                Shape::Mark(0),
                ends,
                Shape::Fill(16384),
                Shape::Place(0),
                Shape::Begin,
                nothing,
            ],
            16384,
        ),
    ];
    for (shapes, size) in &cases {
        let made = module_of(rt.alloc(), shapes)?;
        assert_eq!(rt; made.size, *size);
        assert_eq!(rt;
            made.words.len(),
            if *size == 16384 { 0 } else { *size as usize }
        );
    }
    Ok(())
}
