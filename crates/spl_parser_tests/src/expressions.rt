//! Expressions and conditions worked by hand: how many tokens one takes, and where its first fault is.

use crate::verdicts::Rule::{Condition, Expression};
use crate::verdicts::Verdict::{self, Syntax, Takes, TooDeep};
use crate::verdicts::{compare, compare_in};
use std::test::Fail;

/// Each expression with the number of constructs that may be opened in it.
static EXPRESSIONS: [(&str, u8, Verdict); 18] = [
    ("A )", 0, Takes(1)),
    ("A + B ; C", 0, Takes(3)),
    ("A + * B", 0, Syntax(2)),
    ("- 5 * D", 0, Takes(4)),
    ("A = B = C", 0, Takes(3)),
    ("A . ( 0 : 4 ) . B", 0, Takes(7)),
    ("A . B", 0, Syntax(2)),
    ("A & CSL ( 3 ) + 1", 0, Takes(8)),
    ("A & ROL ( 3 )", 0, Syntax(2)),
    ("@ A ( B ) ( C )", 1, Takes(5)),
    ("@ 5", 0, Syntax(1)),
    ("DOUBLE A", 1, Syntax(1)),
    ("A ( B , C ( D ) )", 2, Takes(9)),
    ("A ( B , C ( D ) )", 1, TooDeep(5)),
    ("NOT NOT A", 2, Takes(3)),
    ("NOT NOT A", 1, TooDeep(1)),
    ("1 + 1 + 1 + 1 + 1 + 1 + 1 + 1", 0, Takes(15)),
    ("1 + 1 + 1 + 1 + 1 + 1 + 1 + 1 + 1", 0, TooDeep(15)),
];

#[test]
fn expressions_and_their_first_faults(rt: HostRuntime) -> Result<(), Fail> {
    compare_in(&rt, rt.alloc(), &Expression, &EXPRESSIONS)
}

static CONDITIONS: [(&str, Verdict); 8] = [
    ("A = B THEN", Takes(3)),
    ("A = B , ( 5 ) OR C THEN", Takes(9)),
    ("A ( I ) < B , ( N ) AND C = D , ( 2 ) DO", Takes(18)),
    ("A = B , 5", Syntax(4)),
    ("A + 1 = B , ( 5 )", Takes(5)),
    ("( A = B ) , ( 5 )", Takes(5)),
    ("A , ( 5 )", Takes(1)),
    ("NOT A OR B THEN", Takes(4)),
];

#[test]
fn conditions_and_comparisons_of_bytes(rt: HostRuntime) -> Result<(), Fail> {
    compare(&rt, rt.alloc(), &Condition, &CONDITIONS)
}
