//! Units worked by hand: which tokens spell one, and where the first fault is.

use crate::printed::{Tree, printed};
use crate::verdicts::Verdict::{self, Syntax, TooDeep, Unit};
use crate::verdicts::{Rule, compare, verdict_of};
use std::alloc::{AllocError, Global};
use std::test::Fail;

static UNITS: [(&str, Verdict); 60] = [
    ("BEGIN END .", Unit),
    ("BEGIN ; ; END .", Unit),
    ("END", Syntax(0)),
    ("BEGIN END", Syntax(2)),
    ("BEGIN END . A", Syntax(3)),
    ("BEGIN INTEGER I , J := 5 ; END .", Unit),
    ("BEGIN INTEGER I := - 5 ; END .", Unit),
    ("BEGIN INTEGER I END .", Syntax(3)),
    ("BEGIN INTEGER 5 ; END .", Syntax(2)),
    ("BEGIN ARRAY A ( 0 : 9 ) := 1 , 2 ; END .", Unit),
    ("BEGIN ARRAY A ( 0 : 9 ) , B ( * ) = A ; END .", Unit),
    ("BEGIN ARRAY A ( 0 , 9 ) ; END .", Syntax(5)),
    ("BEGIN OWN INTEGER I ; END .", Unit),
    ("BEGIN OWN POINTER P ; END .", Syntax(2)),
    ("BEGIN BYTE POINTER P , Q ; END .", Unit),
    ("BEGIN POINTER P ; END .", Syntax(1)),
    ("BEGIN EQUATE N = 5 + 3 - M ; END .", Unit),
    ("BEGIN EQUATE N = 5 * 3 ; END .", Syntax(5)),
    ("BEGIN INTRINSIC QUIT ; LABEL L ; QUIT ( 1 ) END .", Unit),
    ("BEGIN PROCEDURE P ; I := 1 ; P END .", Unit),
    ("BEGIN PROCEDURE P ; BEGIN END ; P END .", Unit),
    ("BEGIN PROCEDURE P ; ; P END .", Syntax(4)),
    ("BEGIN PROCEDURE P ; OPTION FORWARD ; END .", Unit),
    (
        "BEGIN PROCEDURE P ; OPTION FORWARD , EXTERNAL ; END .",
        Syntax(7),
    ),
    (
        "BEGIN PROCEDURE P ; OPTION SPLIT , SPLIT ; I := 1 ; END .",
        Unit,
    ),
    ("BEGIN PROCEDURE P ; OPTION VIRTUAL ; END .", Syntax(5)),
    (
        "BEGIN PROCEDURE P ( A , B ) ; VALUE A ; INTEGER A , B ; RETURN ; END .",
        Unit,
    ),
    (
        "BEGIN PROCEDURE P ; BEGIN PROCEDURE Q ; RETURN ; END ; END .",
        Syntax(5),
    ),
    ("BEGIN SUBROUTINE S ; RETURN ; END .", Unit),
    ("BEGIN SUBROUTINE S ; RETURN ; INTEGER I ; END .", Syntax(7)),
    (
        "BEGIN SUBROUTINE S ; RETURN ; INTEGER SUBROUTINE T ; T := 1 ; END .",
        Unit,
    ),
    ("BEGIN I := 1 ; INTEGER J ; END .", Syntax(5)),
    ("BEGIN L : I := 1 END .", Unit),
    ("BEGIN A ( I ) := B ( J , K ) END .", Unit),
    ("BEGIN A ( I , J ) := 5 END .", Syntax(7)),
    ("BEGIN A . ( 0 : 4 ) := 5 END .", Unit),
    ("BEGIN A := B . ( 0 : 4 ) END .", Unit),
    ("BEGIN A := B . C END .", Syntax(5)),
    ("BEGIN @ P := @ A ( 3 ) END .", Unit),
    ("BEGIN A := B & LSL ( 3 ) END .", Unit),
    ("BEGIN A := B & XSL ( 3 ) END .", Syntax(5)),
    ("BEGIN A := B + * C END .", Syntax(5)),
    ("BEGIN A := - 5 * D END .", Unit),
    ("BEGIN A := B = C = D END .", Syntax(6)),
    ("BEGIN A := ( B = C ) = D END .", Unit),
    ("BEGIN A := INTEGER ( B ) END .", Unit),
    ("BEGIN A := ASSEMBLE END .", Syntax(3)),
    ("BEGIN IF < THEN A := 1 ELSE A := 2 END .", Unit),
    ("BEGIN IF A = B , ( 5 ) THEN C END .", Unit),
    ("BEGIN IF A + 1 = B , ( 5 ) THEN C END .", Syntax(7)),
    ("BEGIN IF A THEN B ; ELSE C END .", Syntax(6)),
    ("BEGIN IF A THEN IF B THEN C ELSE D ELSE E END .", Unit),
    ("BEGIN WHILE A DO B END .", Unit),
    ("BEGIN DO A UNTIL B END .", Unit),
    (
        "BEGIN FOR I := 1 STEP 2 UNTIL 9 DO A ( I ) := 0 END .",
        Unit,
    ),
    ("BEGIN CASE I OF BEGIN A ; B ; END END .", Unit),
    ("BEGIN GO TO L ; GO L ; GOTO L ; RETURN END .", Unit),
    (
        "BEGIN MOVE A := B , ( 5 ) ; MOVE A := ' ; MOVE A := B WHILE AN END .",
        Unit,
    ),
    ("BEGIN MOVE A := B WHILE XY END .", Syntax(6)),
    ("BEGIN SCAN A UNTIL 5 ; I := SCAN A WHILE 6 END .", Unit),
];

#[test]
fn units_and_their_first_faults(rt: HostRuntime) -> Result<(), Fail> {
    compare(&rt, rt.alloc(), &Rule::Unit, &UNITS)
}

/// Shapes that nest: what stands before them, their opening words, what is inside, their closing words, and what stands
/// behind; how many may be open, and the token that opens one too many.
type Nest = (
    &'static str,
    &'static str,
    &'static str,
    &'static str,
    &'static str,
    usize,
    usize,
);

/// Eight operators count as one construct.
const SUM: Nest = ("BEGIN ", "", "A := 1", " + 1", " END .", 519, 1042);

static NESTS: [Nest; 17] = [
    ("BEGIN ", "BEGIN ", "A", " END", " END .", 64, 65),
    ("BEGIN ", "L : ", "A", "", " END .", 64, 130),
    ("BEGIN ", "IF A THEN ", "B", "", " END .", 64, 193),
    SUM,
    ("BEGIN ", "WHILE A DO ", "B", "", " END .", 64, 193),
    ("BEGIN ", "DO ", "A", " UNTIL B", " END .", 64, 65),
    (
        "BEGIN ",
        "FOR I := 1 UNTIL 9 DO ",
        "A",
        "",
        " END .",
        64,
        449,
    ),
    ("BEGIN ", "CASE I OF BEGIN ", "A", " END", " END .", 64, 257),
    ("BEGIN A := ", "NOT ", "B", "", " END .", 64, 67),
    ("BEGIN A := ", "F ( ", "B", " )", " END .", 64, 132),
    ("BEGIN A := ", "INTEGER ( ", "B", " )", " END .", 64, 132),
    // an IF and the count of a comparison of bytes are open around the parentheses
    (
        "BEGIN IF A = B , ( ",
        "( ",
        "N",
        " )",
        " ) THEN C END .",
        62,
        69,
    ),
    // the index of what is assigned
    ("BEGIN A ( ", "( ", "B", " )", " ) := C END .", 63, 66),
    // so they do here
    (
        "BEGIN A := 1 + 1 + 1 + 1 + 1 + 1 + 1 + 1 + ",
        "( ",
        "B",
        " )",
        " END .",
        63,
        82,
    ),
    // BEGIN of a subroutine counts, and that of a procedure does not
    (
        "BEGIN SUBROUTINE S ; ",
        "BEGIN ",
        "A",
        " END",
        " ; END .",
        64,
        68,
    ),
    (
        "BEGIN PROCEDURE P ; BEGIN ",
        "BEGIN ",
        "A",
        " END",
        " END ; END .",
        64,
        69,
    ),
    (
        "BEGIN PROCEDURE P ; L : ",
        "BEGIN ",
        "A",
        " END",
        " ; END .",
        63,
        69,
    ),
];

fn add_times(text: &mut String, piece: &str, count: usize) -> Result<(), AllocError> {
    for _turn in 0..count {
        text.push_str(piece)?;
    }
    Ok(())
}

fn add_nest(text: &mut String, nest: &Nest, count: usize) -> Result<(), AllocError> {
    text.push_str(nest.0)?;
    add_times(text, nest.1, count)?;
    text.push_str(nest.2)?;
    add_times(text, nest.3, count)?;
    text.push_str(nest.4)
}

/// What a nest of so many comes to.
fn nest_of(alloc: Global, nest: &Nest, count: usize) -> Result<Verdict, AllocError> {
    let mut text = String::new(alloc);
    match add_nest(&mut text, nest, count) {
        Ok(()) => verdict_of(alloc, &Rule::Unit, text.as_str(), 64),
        Err(error) => Err(error),
    }
}

/// Whether so many nest, and one more does not.
fn nests(alloc: Global, nest: &Nest) -> Result<bool, AllocError> {
    let (.., most, token) = *nest;
    let deepest = nest_of(alloc, nest, most)?;
    let deeper = nest_of(alloc, nest, most.wrapping_add(1))?;
    Ok(deepest == Unit && deeper == TooDeep(token))
}

#[test]
fn each_shape_nests_so_deep(rt: HostRuntime) -> Result<(), Fail> {
    for nest in &NESTS {
        assert!(rt; nests(rt.alloc(), nest)?, "{} {}", nest.0, nest.1);
    }
    assert!(rt; nest_of(rt.alloc(), &SUM, 511)? == Unit);
    Ok(())
}

/// Two statements, and whether they have one tree. Parentheses leave no trace in it.
static TREES: [(&str, &str, bool); 20] = [
    ("A := B + C * D", "A := B + ( C * D )", true),
    ("A := B - C - D", "A := ( B - C ) - D", true),
    ("A := B - C - D", "A := B - ( C - D )", false),
    ("A := B OR C AND D", "A := B OR ( C AND D )", true),
    ("A := B AND C LOR D", "A := B AND ( C LOR D )", true),
    ("A := B LOR C XOR D", "A := B LOR ( C XOR D )", true),
    ("A := B XOR C LAND D", "A := B XOR ( C LAND D )", true),
    ("A := B LAND C = D", "A := B LAND ( C = D )", true),
    ("A := B = C + D", "A := B = ( C + D )", true),
    ("A := B MOD C / D", "A := ( B MOD C ) / D", true),
    ("A := - B + C", "A := ( - B ) + C", true),
    ("A := - B * C", "A := - ( B * C )", true),
    ("A := - 5 * C", "A := ( - 5 ) * C", true),
    ("A := - 5", "A := - ( 5 )", false),
    ("A := B * C & LSL ( 2 )", "A := B * ( C & LSL ( 2 ) )", true),
    ("A := NOT B & LSL ( 2 )", "A := ( NOT B ) & LSL ( 2 )", true),
    ("A := NOT B . ( 0 : 4 )", "A := NOT ( B . ( 0 : 4 ) )", true),
    ("A ( B ) := C", "( A ( B ) ) := C", false),
    ("IF < THEN A", "IF ( < ) THEN A", false),
    ("GO TO L", "GOTO L", true),
];

/// The tree of a unit with this one statement. Each token has the same place.
fn tree(alloc: Global, statement: &str) -> Result<String, AllocError> {
    let text = format!(in alloc; "BEGIN {statement} END .")?;
    printed(alloc, &Tree::Unit, text.as_str(), 0)
}

/// Whether both have trees, and these are the same or not, as is wanted.
fn are_so(alloc: Global, left: &str, right: &str, same: bool) -> Result<bool, AllocError> {
    let tree_of_left = tree(alloc, left)?;
    let tree_of_right = tree(alloc, right)?;
    let is_same = tree_of_left.as_str() == tree_of_right.as_str();
    Ok(!tree_of_left.is_empty() && is_same == same)
}

#[test]
fn statements_with_one_tree(rt: HostRuntime) -> Result<(), Fail> {
    for (left, right, same) in &TREES {
        assert!(rt; are_so(rt.alloc(), left, right, *same)?, "{left}");
    }
    Ok(())
}
