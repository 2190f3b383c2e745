//! Units worked by hand, and the first rule that each breaks, with line and column; or that they are sound.

use crate::told::{Told, one, two};
use std::alloc::Global;
use std::process::Abort;
use std::rt::HostRuntime;
use std::test::Fail;

/// Each text breaks this rule first, at this line and column.
fn compare(rt: &impl Abort, alloc: Global, cases: &[(&str, u8, u32, u32)]) -> Result<(), Fail> {
    for (text, rule, line, column) in cases {
        let told = one(alloc, text.as_bytes());
        assert!(rt; told == Told::Rule(*rule, 1, *line, *column), "{text}");
    }
    Ok(())
}

static FIRST: [(&str, u8, u32, u32); 25] = [
    ("BEGIN INTEGER ARRAY B(0:1),A(5:1); END.", 15, 1, 28),
    (
        "BEGIN PROCEDURE P; OPTION SPLIT;\nBEGIN INTEGER J; INTEGER ARRAY A(0:1); J:=1; END; P END.",
        27,
        2,
        32,
    ),
    ("BEGIN INTRINSIC QUIT; QUIT:=1 END.", 3, 1, 23),
    ("BEGIN INTEGER I; I:=1;\nI:=I.(10:0) END.", 13, 2, 4),
    ("BEGIN INTEGER I; I:=1;\nI:=I.(10:7) END.", 13, 2, 4),
    (
        "BEGIN LOGICAL ARRAY W(0:39); BYTE ARRAY B(*)=W; INTEGER I,J,K,N; LOGICAL L; INTRINSIC PRINT,READ,ASCII,DASCII,BINARY,DBINARY,TERMINATE,QUIT;\nMOVE B:=W,(1) END.",
        24,
        2,
        1,
    ),
    ("BEGIN INTEGER I; I:=1; IF > THEN I:=2 END.", 22, 1, 24),
    (
        "BEGIN LOGICAL ARRAY W(0:39); BYTE ARRAY B(*)=W; INTEGER I,J,K,N; LOGICAL L; INTRINSIC PRINT,READ,ASCII,DASCII,BINARY,DBINARY,TERMINATE,QUIT; INTEGER ARRAY Q(0:1); Q(0):=READ(W,1); IF = THEN I:=2 END.",
        22,
        1,
        181,
    ),
    (
        "BEGIN LOGICAL ARRAY W(0:39); BYTE ARRAY B(*)=W; INTEGER I,J,K,N; LOGICAL L; INTRINSIC PRINT,READ,ASCII,DASCII,BINARY,DBINARY,TERMINATE,QUIT; PRINT(W,1,0); IF = THEN ; IF = THEN I:=2 END.",
        22,
        1,
        168,
    ),
    ("BEGIN INTEGER I;\nIF I THEN I:=1 END.", 7, 2, 4),
    (
        "$CONTROL SUBPROGRAM\nBEGIN\nINTEGER I; PROCEDURE P; RETURN; END.",
        28,
        3,
        9,
    ),
    ("BEGIN EQUATE A=40000,B=A+A; END.", 14, 1, 22),
    ("BEGIN EQUATE A=-32768,B=A-1; END.", 14, 1, 23),
    (
        "BEGIN LOGICAL L; INTRINSIC QUIT; IF CARRY THEN QUIT(3) END.",
        1,
        1,
        37,
    ),
    ("BEGIN PROCEDURE P; OPTION FORWARD; P END.", 19, 1, 17),
    (
        "BEGIN INTEGER I; PROCEDURE P; OPTION SPLIT;\nBEGIN I:=1; END; P END.",
        27,
        2,
        7,
    ),
    ("BEGIN PROCEDURE P; K:=1; INTEGER K; P END.", 1, 1, 20),
    (
        "BEGIN PROCEDURE P(A); VALUE A; INTEGER A; OPTION FORWARD; PROCEDURE P(A); VALUE A; LOGICAL A; RETURN; P(1) END.",
        19,
        1,
        69,
    ),
    (
        "BEGIN PROCEDURE P; BEGIN INTEGER ARRAY A(0:1):=1,2; A(0):=1; END; P END.",
        17,
        1,
        40,
    ),
    ("BEGIN INTEGER I; DOUBLE D; IF I<D THEN I:=1 END.", 4, 1, 31),
    ("BEGIN INTEGER I; LOGICAL L; I:=I+L END.", 4, 1, 32),
    (
        "BEGIN INTEGER I; GO TO L1; BEGIN L1: I:=1 END END.",
        21,
        1,
        18,
    ),
    (
        "BEGIN INTEGER I; PROCEDURE P; GOTO L1; L1: P END.",
        21,
        1,
        31,
    ),
    ("BEGIN INTEGER I; L1: I:=1; L1: I:=2; GO L1 END.", 20, 1, 28),
    ("BEGIN LOGICAL L;\nFOR L:=1 UNTIL 2 DO ; END.", 23, 2, 1),
];

static SECOND: [(&str, u8, u32, u32); 26] = [
    ("BEGIN INTEGER ARRAY A(0:1):=1,2,3; END.", 15, 1, 21),
    ("BEGIN INTEGER I,I; I:=1 END.", 2, 1, 17),
    ("BEGIN INTRINSIC QUIT,ARITRAP; QUIT(1) END.", 26, 1, 22),
    (
        "BEGIN LOGICAL ARRAY W(0:39); BYTE ARRAY B(*)=W; INTEGER I,J,K,N; LOGICAL L; INTRINSIC PRINT,READ,ASCII,DASCII,BINARY,DBINARY,TERMINATE,QUIT; PRINT(5,1,0) END.",
        10,
        1,
        142,
    ),
    ("BEGIN OWN INTEGER I; END.", 17, 1, 19),
    (
        "BEGIN PROCEDURE P(A); VALUE A; INTEGER A; BEGIN INTEGER A; A:=1; END; P(1) END.",
        2,
        1,
        57,
    ),
    (
        "BEGIN PROCEDURE P(A); VALUE A; INTEGER A; LOGICAL A; RETURN; P(1) END.",
        18,
        1,
        51,
    ),
    ("BEGIN DOUBLE D; \nD:=D*D END.", 5, 2, 4),
    ("BEGIN INTEGER PROCEDURE F; F:=1; F:=2 END.", 12, 1, 34),
    ("BEGIN INTEGER I; IF I=1 THEN RETURN END.", 25, 1, 30),
    ("BEGIN INTEGER I; I:=1;\nI:=I&LSL(16) END.", 13, 2, 4),
    (
        "$CONTROL SUBPROGRAM\nBEGIN PROCEDURE P; RETURN;\nP END.",
        28,
        3,
        1,
    ),
    ("BEGIN INTEGER I;\nI:=\"ABC\" END.", 14, 2, 1),
    (
        "BEGIN PROCEDURE P; S; SUBROUTINE S; RETURN; P END.",
        1,
        1,
        20,
    ),
    ("BEGIN INTEGER I; I:=J; I:=1D; RETURN END.", 1, 1, 21),
    (
        "BEGIN INTEGER I; INTEGER PROCEDURE F(A,B); VALUE A,B; INTEGER A,B; F:=A+B; I:=1+F(2) END.",
        8,
        1,
        81,
    ),
    ("BEGIN INTRINSIC QUIT; QUIT(1,2) END.", 8, 1, 23),
    ("BEGIN\nJ:=1\nEND.", 1, 2, 1),
    ("BEGIN INTRINSIC QUIT,FOPEN; QUIT(1) END.", 26, 1, 22),
    ("BEGIN INTEGER I; PROCEDURE P; I:=2; I:=1+P END.", 11, 1, 42),
    (
        "BEGIN PROCEDURE P(A); VALUE A,B; INTEGER A; RETURN; P(1) END.",
        18,
        1,
        31,
    ),
    ("BEGIN INTEGER I; I END.", 3, 1, 18),
    (
        "BEGIN BYTE ARRAY C(0:3); BYTE ARRAY D(*)=C; END.",
        16,
        1,
        37,
    ),
    (
        "BEGIN LOGICAL ARRAY C(0:3); DOUBLE ARRAY D(*)=C; END.",
        16,
        1,
        42,
    ),
    (
        "BEGIN LOGICAL ARRAY W(0:39); BYTE ARRAY B(*)=W; INTEGER I,J,K,N; LOGICAL L; INTRINSIC PRINT,READ,ASCII,DASCII,BINARY,DBINARY,TERMINATE,QUIT; N:=DASCII(5,10,B) END.",
        9,
        1,
        145,
    ),
    ("BEGIN DOUBLE D;\nD:=1 END.", 6, 2, 1),
];

static OF_EACH_RULE: [(&str, u8, u32, u32); 28] = [
    ("BEGIN INTEGER I; I:=J+K END.", 1, 1, 21),
    ("BEGIN INTEGER A; EQUATE A=1; END.", 2, 1, 25),
    ("BEGIN LABEL L; INTEGER I; I:=L; L: END.", 3, 1, 30),
    ("BEGIN INTEGER I; LOGICAL L; L:=L+I END.", 4, 1, 32),
    ("BEGIN DOUBLE D; D:=D MOD D END.", 5, 1, 20),
    ("BEGIN INTEGER I; DOUBLE D; I:=1; D:=I END.", 6, 1, 34),
    ("BEGIN INTEGER I; I:=1; WHILE I DO I:=0 END.", 7, 1, 30),
    (
        "BEGIN PROCEDURE P(A); VALUE A; INTEGER A; RETURN; P END.",
        8,
        1,
        51,
    ),
    (
        "BEGIN DOUBLE D; PROCEDURE P(A); VALUE A; INTEGER A; RETURN; P(D) END.",
        9,
        1,
        63,
    ),
    (
        "BEGIN BYTE B; PROCEDURE P(A); INTEGER A; RETURN; P(B) END.",
        10,
        1,
        52,
    ),
    ("BEGIN INTEGER I; PROCEDURE P; RETURN; I:=P END.", 11, 1, 42),
    ("BEGIN INTEGER PROCEDURE F; F:=1; F:=2 END.", 12, 1, 34),
    ("BEGIN LOGICAL L; L:=L&LSL(16) END.", 13, 1, 21),
    ("BEGIN INTEGER I:=5D; END.", 14, 1, 15),
    ("BEGIN DOUBLE D:=5; END.", 15, 1, 14),
    ("BEGIN INTEGER I; INTEGER ARRAY A(*)=I; END.", 16, 1, 32),
    ("BEGIN OWN INTEGER I; END.", 17, 1, 19),
    ("BEGIN PROCEDURE P(A); RETURN; END.", 18, 1, 19),
    (
        "BEGIN PROCEDURE P; OPTION FORWARD; PROCEDURE P(A); VALUE A; INTEGER A; RETURN; P END.",
        19,
        1,
        46,
    ),
    ("BEGIN IF TRUE THEN L: ELSE L: END.", 20, 1, 28),
    ("BEGIN GO TO L; BEGIN L: END END.", 21, 1, 7),
    ("BEGIN INTEGER I; I:=1; IF = THEN I:=2 END.", 22, 1, 24),
    ("BEGIN LOGICAL L; FOR L:=1 UNTIL 2 DO; END.", 23, 1, 18),
    (
        "BEGIN INTEGER ARRAY A(0:1); BYTE ARRAY B(0:1); MOVE A:=B,(1) END.",
        24,
        1,
        48,
    ),
    ("BEGIN ; RETURN END.", 25, 1, 9),
    ("BEGIN INTRINSIC PRINT, PUNCH; END.", 26, 1, 24),
    (
        "BEGIN INTEGER G; PROCEDURE P; OPTION SPLIT; BEGIN G:=1 END; P END.",
        27,
        1,
        51,
    ),
    (
        "$CONTROL SUBPROGRAM\nBEGIN SUBROUTINE S; RETURN; END.",
        28,
        2,
        18,
    ),
];

static OF_SEVERAL: [(&str, u8, u32, u32); 11] = [
    (
        "BEGIN INTRINSIC QUIT; INTEGER PROCEDURE P; BEGIN INTEGER SUBROUTINE P; P:=5; P:=7 END; QUIT(P) END.",
        12,
        1,
        78,
    ),
    ("BEGIN DOUBLE D:=Z; END.", 1, 1, 17),
    ("BEGIN INTEGER I; DOUBLE D:=I; END.", 3, 1, 28),
    ("BEGIN INTEGER ARRAY A(0:L):=4,5,6; END.", 1, 1, 25),
    (
        "BEGIN DEFINE D=EQUATE A=\"ABC\"; LOGICAL L; L:=L.(0:A)#; D END.",
        14,
        1,
        56,
    ),
    (
        "BEGIN EQUATE A=65535+1; LOGICAL L; L:=L.(0:A) END.",
        14,
        1,
        14,
    ),
    ("BEGIN INTEGER I; I:=J; I:=K; L:=1 END.", 1, 1, 21),
    (
        "BEGIN PROCEDURE P(A,A); VALUE A; INTEGER A; RETURN; END.",
        2,
        1,
        21,
    ),
    (
        "BEGIN PROCEDURE P; OPTION FORWARD; PROCEDURE Q; RETURN; Q END.",
        19,
        1,
        17,
    ),
    (
        "BEGIN PROCEDURE P(A); VALUE A,B; INTEGER A; RETURN; END.",
        18,
        1,
        31,
    ),
    (
        "BEGIN PROCEDURE P(A); INTEGER A; OPTION SPLIT; RETURN; END.",
        27,
        1,
        19,
    ),
];

/// The part of which each rule speaks begins at line 3, column 2, and ends on a later line where it can: one for each
/// kind of part that has a place.
static AT_LINE_THREE: [(&str, u8); 32] = [
    ("BEGIN INTEGER I;\nI:=\n J END.", 1),
    (
        "BEGIN PROCEDURE P; OPTION SPLIT; BEGIN INTEGER I;\nI:=\n @I; END; P END.",
        27,
    ),
    ("BEGIN LOGICAL L;\nL:=\n NOT 5D END.", 7),
    ("BEGIN INTEGER I; LOGICAL L;\nI:=\n I+\nL END.", 4),
    ("BEGIN LOGICAL L;\nL:=\n L&\nLSL(16) END.", 13),
    ("BEGIN LOGICAL L;\nL:=\n L.\n(10:7) END.", 13),
    ("BEGIN LOGICAL L;\nIF\n INTEGER(L) THEN L:=1 END.", 7),
    (
        "BEGIN LOGICAL ARRAY W(0:3); BYTE ARRAY B(0:3);\nIF\n W=B,(2) THEN W(0):=1 END.",
        24,
    ),
    ("BEGIN INTEGER I; L: I:=1;\n\n L: I:=2; GO L END.", 20),
    ("BEGIN INTEGER I; I:=1;\n\n IF > THEN I:=2 END.", 22),
    ("BEGIN INTEGER I;\n\n WHILE\n5D DO I:=0 END.", 7),
    ("BEGIN INTEGER I;\n\n DO I:=0\nUNTIL 5D END.", 7),
    ("BEGIN LOGICAL L;\n\n FOR\nL:=1 UNTIL 2 DO ; END.", 23),
    ("BEGIN INTEGER I;\n\n CASE\n5D OF BEGIN I:=1 END END.", 14),
    ("BEGIN\n\n GO\nTO L; BEGIN L: END END.", 21),
    ("BEGIN ;\n\n RETURN END.", 25),
    ("BEGIN DOUBLE D;\n\n D\n:=1 END.", 6),
    (
        "BEGIN DOUBLE D; BYTE ARRAY B(0:3);\n\n D\n:=MOVE B:=\"A\" END.",
        6,
    ),
    (
        "BEGIN LOGICAL ARRAY W(0:3); BYTE ARRAY B(0:3);\n\n MOVE\nB:=W,(1) END.",
        24,
    ),
    ("BEGIN INTRINSIC QUIT;\n\n QUIT\n(1,2) END.", 8),
    ("BEGIN INTEGER ARRAY A(0:1);\n\n @\nA:=5 END.", 3),
    ("BEGIN INTEGER\nI,\n I; I:=1 END.", 2),
    ("BEGIN EQUATE\nA=40000,\n B=A+A; END.", 14),
    ("BEGIN INTRINSIC\nPRINT,\n PUNCH; END.", 26),
    ("BEGIN LABEL\nL,\n L; L: END.", 2),
    ("BEGIN PROCEDURE\n\n P; OPTION FORWARD; P END.", 19),
    (
        "BEGIN PROCEDURE P(A,\n\n A); VALUE A; INTEGER A; RETURN; END.",
        2,
    ),
    (
        "BEGIN PROCEDURE P(A); VALUE A,\n\n B; INTEGER A; RETURN; END.",
        18,
    ),
    (
        "BEGIN PROCEDURE P(A); VALUE A; INTEGER A; LOGICAL\n\n A; RETURN; END.",
        18,
    ),
    ("BEGIN INTEGER ARRAY A(0:\n\n N); END.", 1),
    (
        "$CONTROL SUBPROGRAM\nBEGIN SUBROUTINE\n S; RETURN; END.",
        28,
    ),
    ("$CONTROL SUBPROGRAM\n\n BEGIN BEGIN END END.", 28),
];

static SOUND: [&str; 8] = [
    "BEGIN END.",
    "BEGIN INTRINSIC QUIT; PROCEDURE P; BEGIN INTEGER I:=1; QUIT(I) END; P END.",
    "BEGIN EQUATE N=1; INTRINSIC QUIT; PROCEDURE P; BEGIN INTEGER I:=N; EQUATE N=2; QUIT(I) END; P END.",
    "BEGIN INTEGER PROCEDURE F(N); VALUE N; INTEGER N; OPTION FORWARD; INTEGER PROCEDURE F(N); VALUE N; INTEGER N; F:=N; INTEGER I; I:=F(1) END.",
    "BEGIN LABEL L; INTEGER I; L: I:=I+1; IF I<10 THEN GO TO L END.",
    "BEGIN INTEGER I; SUBROUTINE S(A); VALUE A; INTEGER A; I:=A; S(5); S(I) END.",
    "BEGIN INTEGER ARRAY A(0:9); LOGICAL ARRAY B(*)=A; BYTE ARRAY C(*)=A; B(1):=A(2); END.",
    "$CONTROL SUBPROGRAM\nBEGIN PROCEDURE P; RETURN; ; END.",
];

#[test]
fn units_that_break_a_rule(rt: HostRuntime) -> Result<(), Fail> {
    compare(&rt, rt.alloc(), &FIRST)
}

#[test]
fn more_units_that_break_a_rule(rt: HostRuntime) -> Result<(), Fail> {
    compare(&rt, rt.alloc(), &SECOND)
}

#[test]
fn each_rule_once_more(rt: HostRuntime) -> Result<(), Fail> {
    compare(&rt, rt.alloc(), &OF_EACH_RULE)
}

#[test]
fn the_first_of_several(rt: HostRuntime) -> Result<(), Fail> {
    compare(&rt, rt.alloc(), &OF_SEVERAL)
}

#[test]
fn parts_at_a_later_line(rt: HostRuntime) -> Result<(), Fail> {
    for (text, rule) in &AT_LINE_THREE {
        let told = one(rt.alloc(), text.as_bytes());
        assert!(rt; told == Told::Rule(*rule, 1, 3, 2), "{text}");
    }
    Ok(())
}

#[test]
fn sound_units(rt: HostRuntime) -> Result<(), Fail> {
    for text in &SOUND {
        assert!(rt; one(rt.alloc(), text.as_bytes()) == Told::Sound, "{text}");
    }
    Ok(())
}

static OF_TWO: [(&str, &str, Told); 4] = [
    (
        "BEGIN INTEGER I; PROCEDURE P(A); VALUE A; INTEGER A; OPTION EXTERNAL; P(I) END.",
        "$CONTROL SUBPROGRAM\nBEGIN PROCEDURE P(A); INTEGER A; RETURN; END.",
        Told::Rule(19, 1, 1, 28),
    ),
    (
        "BEGIN INTEGER I; INTRINSIC QUIT; I:=1; QUIT(I) END.",
        "$CONTROL SUBPROGRAM\nBEGIN PROCEDURE P;\n Q:=1; END.",
        Told::Rule(1, 2, 3, 2),
    ),
    (
        "BEGIN PROCEDURE P(A); VALUE A; INTEGER A; OPTION EXTERNAL; P(1) END.",
        "$CONTROL SUBPROGRAM\nBEGIN PROCEDURE P(B); VALUE B; INTEGER B; RETURN; END.",
        Told::Sound,
    ),
    (
        "BEGIN PROCEDURE P(A); VALUE A; INTEGER A; OPTION EXTERNAL; P(1) END.",
        "$CONTROL SUBPROGRAM\nBEGIN PROCEDURE P(B); VALUE B; LOGICAL B; RETURN; END.",
        Told::Rule(19, 1, 1, 17),
    ),
];

#[test]
fn programs_of_two_units(rt: HostRuntime) -> Result<(), Fail> {
    for (first, second, wanted) in &OF_TWO {
        assert!(rt;
            two(rt.alloc(), first.as_bytes(), second.as_bytes()) == *wanted,
            "{first}"
        );
    }
    Ok(())
}
