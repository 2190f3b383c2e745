//! Where the data of programs stand and what their bodies need, beside numbers that were worked out by hand.
ghost use Rattle.std.specs.Prelude.{◌≤◌, length, IfOk};

use spl_layout::{Layout, places};
use spl_program::{Sound, read_program};
use spl_tree::Chars;
use std::alloc::{AllocError, Global};
use std::test::Fail;

/// The word of an item or a parameter, and where an array's data begin.
type Word = (u16, Option<u16>);

/// The local words of a body, its depth, and where its result stands.
type Needs = (u64, u64, Option<u16>);

/// A program, and its layout. A place below a base is a two's complement word: 65,532 is four below it.
struct Case {
    what: &'static str,
    first: &'static str,
    second: Option<&'static str>,
    data: &'static [u16],
    words: &'static [Word],
    bodies: &'static [Needs],
}

/// Each sort of item, parameter and body.
static CASES: [Case; 5] = [
    // the cell of B is twice 5 and 3, that of A is 9 and twice 1
    Case {
        what: "arrays of bytes and of doubles with negative bounds",
        first: "BEGIN INTEGER I; DOUBLE D; BYTE ARRAY B(-3:3); DOUBLE ARRAY A(-1:1); END.",
        second: None,
        data: &[0, 0, 0, 13, 11, 0, 0, 0, 0, 0, 0, 0, 0, 0, 0],
        words: &[(0, None), (1, None), (3, Some(5)), (4, Some(9))],
        bodies: &[(0, 8, None)],
    },
    // the views have the cell of W, 3 less 2, and twice that; "AB" is %40502
    Case {
        what: "views, and first values of their base",
        first: "BEGIN LOGICAL ARRAY W(2:4):=\"AB\",7; BYTE ARRAY B(*)=W; INTEGER ARRAY V(*)=W; END.",
        second: None,
        data: &[1, 2, 1, 16_706, 7, 0],
        words: &[(0, Some(3)), (1, None), (2, None)],
        bodies: &[(0, 8, None)],
    },
    // OWN items stand behind the globals of all units; the call of P has a marker above
    Case {
        what: "OWN items of a second unit",
        first: "BEGIN INTEGER I:=9; PROCEDURE P; OPTION EXTERNAL; P END.",
        second: Some(
            "$CONTROL SUBPROGRAM\nBEGIN PROCEDURE P; BEGIN OWN DOUBLE D; OWN INTEGER K:=5; INTEGER L; LOGICAL ARRAY A(1:3); K:=L END; END.",
        ),
        data: &[9, 0, 0, 5],
        words: &[(0, None), (1, None), (3, None), (1, None), (2, Some(3))],
        bodies: &[(0, 12, None), (5, 8, None)],
    },
    // below three words of the marker: Z, both words of Y, X, both words of the result; below the return word: B, both words of A, the result
    Case {
        what: "parameters and results of a procedure and of its subroutine",
        first: "BEGIN INTEGER I; DOUBLE PROCEDURE F(X,Y,Z); VALUE X,Y; INTEGER X; DOUBLE Y; BYTE Z; BEGIN INTEGER L; LOGICAL SUBROUTINE S(A,B); VALUE A; DOUBLE A; INTEGER B; S:=B; L:=0 END; END.",
        second: None,
        data: &[0],
        words: &[
            (0, None),
            (65_529, None),
            (65_530, None),
            (65_532, None),
            (1, None),
            (65_533, None),
            (65_535, None),
        ],
        bodies: &[(0, 8, None), (1, 8, Some(65_527)), (0, 8, Some(65_532))],
    },
    // F(1,2) takes seven words; in the body of the FOR three wait, and before the inner call the outer result
    Case {
        what: "calls in a FOR in a CASE",
        first: "BEGIN INTEGER I; INTEGER PROCEDURE F(X,Y); VALUE X,Y; INTEGER X,Y; F:=X; CASE F(1,2) OF BEGIN FOR I:=1 UNTIL F(I,I) DO I:=F(F(1,2),3) END END.",
        second: None,
        data: &[0],
        words: &[(0, None), (65_531, None), (65_532, None)],
        bodies: &[(0, 19, None), (0, 8, Some(65_530))],
    },
];

/// The text of a unit; one of more bytes than may be is cut.
fn text(alloc: Global, unit: &str) -> Result<Chars, AllocError>
    ensures { IfOk result (λ t. length t.bytes.items ≤ 1048576) }
{
    let bytes = unit.as_bytes();
    let most = bytes.len().min(1_048_576);
    Ok(Chars {
        bytes: Vec::from_slice(alloc, &bytes[..most])?,
    })
}

/// The units that texts are.
fn program(alloc: Global, first: &str, second: Option<&str>) -> Result<Sound, Fail> {
    match second {
        None => {
            let texts = [text(alloc, first)?];
            Ok(read_program(alloc, &texts)?)
        }
        Some(second) => {
            let texts = [text(alloc, first)?, text(alloc, second)?];
            Ok(read_program(alloc, &texts)?)
        }
    }
}

/// The words of a layout.
fn words_of(alloc: Global, layout: &Layout) -> Result<Vec<Word>, Fail> {
    let mut words = Vec::new(alloc);
    for place in &layout.places {
        words.push((place.word, place.array))?;
    }
    Ok(words)
}

/// What the bodies of a layout need.
fn needs_of(alloc: Global, layout: &Layout) -> Result<Vec<Needs>, Fail> {
    let mut bodies = Vec::new(alloc);
    for body in &layout.bodies {
        bodies.push((body.locals, body.depth, body.result))?;
    }
    Ok(bodies)
}

#[test]
fn programs_have_the_layouts_that_were_worked_out_for_them(rt: HostRuntime) -> Result<(), Fail> {
    let alloc = rt.alloc();
    for case in &CASES {
        let sound = program(alloc, case.first, case.second)?;
        let layout = places(alloc, &sound)?;
        let words = words_of(alloc, &layout)?;
        let bodies = needs_of(alloc, &layout)?;
        assert_eq!(rt; layout.globals.as_slice(), case.data, "{}", case.what);
        assert_eq!(rt; words.as_slice(), case.words, "{}", case.what);
        assert_eq!(rt; bodies.as_slice(), case.bodies, "{}", case.what);
    }
    Ok(())
}
