//! Statements worked by hand: how many tokens one takes, and where its first fault is.

use crate::verdicts::Rule::{Statement, Statements};
use crate::verdicts::Verdict::{self, Syntax, Takes, TooDeep};
use crate::verdicts::{compare, compare_in};
use std::test::Fail;

static STATEMENTS: [(&str, Verdict); 14] = [
    ("; A", Takes(0)),
    ("A ; B", Takes(1)),
    ("A := B = C ; D", Takes(5)),
    ("A ( I ) := MOVE B := C , ( 3 ) END", Takes(13)),
    ("A ( I , J ) := 5", Takes(6)),
    ("@ P := 5", Takes(4)),
    ("L : M : GO TO L ; A", Takes(7)),
    ("IF A THEN IF B THEN C ELSE D ELSE E END", Takes(11)),
    ("IF < THEN ELSE A", Takes(5)),
    ("IF A THEN", Takes(3)),
    ("IF THEN A", Syntax(1)),
    ("FOR I := 1 STEP 2 UNTIL 9 DO A END", Takes(10)),
    ("CASE I OF A", Syntax(3)),
    ("MOVE A := B WHILE XY", Syntax(5)),
];

#[test]
fn statements_and_their_first_faults(rt: HostRuntime) -> Result<(), Fail> {
    compare(&rt, rt.alloc(), &Statement, &STATEMENTS)
}

static LISTS: [(&str, u8, Verdict); 5] = [
    ("A ; ; B END", 0, Takes(4)),
    ("BEGIN A ; B END ; C END", 1, Takes(7)),
    ("BEGIN A ; BEGIN B END END", 1, TooDeep(3)),
    ("A ; L : B END", 0, TooDeep(3)),
    ("A B", 0, Takes(1)),
];

#[test]
fn lists_where_so_many_constructs_may_be_opened(rt: HostRuntime) -> Result<(), Fail> {
    compare_in(&rt, rt.alloc(), &Statements, &LISTS)
}
