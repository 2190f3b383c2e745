//! Places of the parts of statements and declarations, worked by hand.

use crate::printed::{Tree, printed};
use std::alloc::{AllocError, Global};
use std::process::Abort;
use std::test::Fail;

/// Adds the columns of the places in a printed tree, in the order in which it is printed, parted by blanks.
fn add_columns(columns: &mut String, printed: &str) -> Result<(), AllocError> {
    for part in printed.split("column: ").skip(1) {
        if let Some((column, _)) = part.split_once(' ') {
            columns.push_str(if columns.is_empty() { "" } else { " " })?;
            columns.push_str(column)?;
        }
    }
    Ok(())
}

fn columns(alloc: Global, as_what: &Tree, text: &str) -> Result<String, AllocError> {
    let printed = printed(alloc, as_what, text, 1)?;
    let mut columns = String::new(alloc);
    match add_columns(&mut columns, printed.as_str()) {
        Ok(()) => Ok(columns),
        Err(error) => Err(error),
    }
}

/// Each text's tree has these places.
fn compare(
    rt: &impl Abort,
    alloc: Global,
    as_what: &Tree,
    rows: &[(&str, &str)],
) -> Result<(), Fail> {
    for (text, wanted) in rows {
        assert_eq!(rt; columns(alloc, as_what, text)?.as_str(), *wanted, "{text}");
    }
    Ok(())
}

/// Statements whose tokens count from 1, with the places of their parts: what a part has before its own place.
static STATEMENTS: [(&str, &str); 36] = [
    ("A := B", "1 3 1"),
    ("A := B + C", "1 3 5 3 1"),
    ("A := ( B + C ) * D", "1 4 6 4 9 3 1"),
    ("A := - 5 * D", "1 6 3 1"),
    ("A := - B * C", "1 4 6 4 3 1"),
    ("A := NOT B", "1 4 3 1"),
    ("A := B ( C , D )", "1 5 7 3 1"),
    ("A := 1 + B ( C )", "1 7 5 3 1"),
    ("A := @ B", "1 3 1"),
    ("A := @ B ( C )", "1 6 3 1"),
    ("A := B & LSL ( N )", "1 3 7 3 1"),
    ("A := ( B ) & LSL ( 3 )", "1 4 3 1"),
    ("A := B . ( N : 4 )", "1 3 6 3 1"),
    ("A := ( B ) . ( 0 : M )", "1 4 10 3 1"),
    ("A := LOGICAL ( B )", "1 5 3 1"),
    ("A := LOGICAL ( B ) + 1", "1 5 3 3 1"),
    ("IF B = C , ( N ) THEN", "2 4 7 2 1"),
    ("IF B ( I ) = C ( J ) , ( 5 ) THEN", "4 2 9 7 2 1"),
    ("IF < THEN X ELSE Y", "4 6 1"),
    ("IF A THEN X", "2 4 1"),
    ("L : M : X", "1 3 5"),
    ("BEGIN L : X END", "2 4"),
    ("WHILE A DO X", "2 4 1"),
    ("DO X UNTIL A", "2 4 1"),
    ("FOR I := J STEP K UNTIL M DO X", "4 6 8 10 1"),
    ("CASE I OF BEGIN X ; Y END", "2 5 7 1"),
    ("GO TO L", "1"),
    ("RETURN", "1"),
    ("A . ( N : 4 ) := B", "1 4 9 1"),
    ("@ P := B", "1 4 1"),
    ("A ( I ) := B", "3 1 6 1"),
    ("I := MOVE A := B , ( N )", "1 4 6 9 1"),
    ("MOVE A := B WHILE AN", "2 4 1"),
    ("MOVE A := '", "2 1"),
    ("SCAN A ( I ) UNTIL N", "4 2 7 1"),
    ("F ( A , - 5 )", "3 1"),
];

static UNITS: [(&str, &str); 13] = [
    ("BEGIN END .", "1"),
    ("BEGIN INTEGER I , J := N ; END .", "3 5 7 1"),
    ("BEGIN OWN INTEGER I ; END .", "4 1"),
    ("BEGIN ARRAY A ( L : H ) := M ; END .", "3 5 7 10 1"),
    ("BEGIN ARRAY A ( 0 : 9 ) , B ( * ) = A ; END .", "3 10 1"),
    ("BEGIN BYTE POINTER P , Q ; END .", "4 6 1"),
    ("BEGIN EQUATE N = 5 + M , K = N ; END .", "3 7 9 11 1"),
    ("BEGIN INTRINSIC QUIT , PRINT ; END .", "3 5 1"),
    ("BEGIN LABEL L , M ; END .", "3 5 1"),
    (
        "BEGIN PROCEDURE P ( A , B ) ; VALUE B ; INTEGER A , B ; X ; Y END .",
        "5 7 11 14 16 3 18 20 1",
    ),
    ("BEGIN INTEGER PROCEDURE P ; OPTION FORWARD ; END .", "4 1"),
    (
        "BEGIN SUBROUTINE S ( A ) ; INTEGER A ; X ; END .",
        "5 9 3 11 1",
    ),
    (
        "BEGIN PROCEDURE P ; BEGIN INTEGER I ; X END ; Y END .",
        "3 7 9 12 1",
    ),
];

#[test]
fn places_of_statements(rt: HostRuntime) -> Result<(), Fail> {
    compare(&rt, rt.alloc(), &Tree::Statement, &STATEMENTS)
}

#[test]
fn places_of_declarations(rt: HostRuntime) -> Result<(), Fail> {
    compare(&rt, rt.alloc(), &Tree::Unit, &UNITS)
}
