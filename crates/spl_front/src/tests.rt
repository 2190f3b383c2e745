//! Texts of units worked by hand: their trees, or their first fault.

mod printed;

use crate::{UnitFault, read_unit};
use printed::unit_text;
use spl_tree::SplUnit;
use std::alloc::{AllocError, Global};
use std::process::Abort;
use std::test::Fail;

/// A unit's tree, or its fault's kind, line and column.
fn shown(alloc: Global, read: &Result<SplUnit, UnitFault>) -> Result<String, AllocError> {
    match read {
        Ok(unit) => Ok(unit_text(alloc, unit)),
        Err(UnitFault::Fault { kind, at }) => {
            format!(in alloc; "{} {} {}", kind.name(), at.line, at.column)
        }
        Err(UnitFault::NoMemory) => Ok(String::new(alloc)),
    }
}

/// What a text comes to. Apart from `compare`, so that no way out of its loop holds a tree.
fn told(alloc: Global, text: &[u8]) -> Result<String, AllocError> {
    if text.len() > 1_048_576 {
        return Ok(String::new(alloc));
    }
    let read = read_unit(alloc, text, 1);
    shown(alloc, &read)
}

/// Each text comes to this.
fn compare(rt: &impl Abort, alloc: Global, cases: &[(&str, &str)]) -> Result<(), Fail> {
    for (text, wanted) in cases {
        assert_eq!(rt; told(alloc, text.as_bytes())?.as_str(), *wanted, "{text}");
    }
    Ok(())
}

static TREES: [(&str, &str); 60] = [
    ("BEGIN END.", "{|_}"),
    ("BEGIN ; ; END.", "{|_;_;_}"),
    ("begin integer i; i:=1; end.", "{INTEGER I;|I:=1;_}"),
    (
        "$CONTROL SUBPROGRAM\nBEGIN PROCEDURE P; RETURN; END.",
        "SUBPROGRAM {PROCEDURE P[|] {|RETURN};|_}",
    ),
    (
        "$CONTROL SEGMENT=ONE\nBEGIN PROCEDURE P; BEGIN SUBROUTINE S; RETURN; S END;\n$CONTROL SEGMENT=TWO\nSUBROUTINE T; RETURN; T END.",
        "{PROCEDURE P[|] {SUBROUTINE S[|] RETURN;|S};SUBROUTINE T@1[|] RETURN;|T}@1",
    ),
    (
        "BEGIN\n$CONTROL SEGMENT=ONE\nPROCEDURE P; BEGIN END;\n$PAGE\nP END.",
        "{PROCEDURE P@1[|] {|_};|P}@1",
    ),
    ("BEGIN COMMENT no; A:=1 << no >> END.", "{|A:=1}"),
    ("BEGIN DEFINE T=2#; I:=T END.", "{|I:=2}"),
    (
        "BEGIN DEFINE A=INTEGER B#; A; B:=1 END.",
        "{INTEGER B;|B:=1}",
    ),
    (
        "BEGIN A:=%17; B:=4294967295D; C:=\"X\"\"Y\" END.",
        "{|A:=15;B:=4294967295D;C:=\"X\"Y\"}",
    ),
    (
        "BEGIN INTEGER A,B:=5,C:=-3; END.",
        "{INTEGER A B:=5 C:=-3;|_}",
    ),
    (
        "BEGIN DOUBLE D:=-5D; LOGICAL L:=TRUE; BYTE C:=\"A\"; END.",
        "{DOUBLE D:=-5D;LOGICAL L:=TRUE;BYTE C:=\"A\";|_}",
    ),
    (
        "BEGIN INTEGER A,A; LABEL L,M; L: GO TO L END.",
        "{INTEGER A A;LABEL L,M;|L:GO L}",
    ),
    (
        "BEGIN ARRAY A(-1:N),B(0:9):=1,2D,\"AB\",+3; END.",
        "{LOGICAL A[-1:N] B[0:9]:=1:=2D:=\"AB\":=3;|_}",
    ),
    (
        "BEGIN BYTE ARRAY A(0:9),B(*)=A; END.",
        "{BYTE A[0:9] B[*]=A;|_}",
    ),
    (
        "BEGIN BYTE POINTER P,Q; OWN LOGICAL L; OWN ARRAY A(0:1); END.",
        "{BYTE @P @Q;OWN LOGICAL L;OWN LOGICAL A[0:1];|_}",
    ),
    (
        "BEGIN EQUATE N=5+3-M,K=-%17; END.",
        "{EQUATE N=+5+3-M K=+-15;|_}",
    ),
    (
        "BEGIN INTRINSIC PRINT,QUIT; QUIT(1) END.",
        "{INTRINSIC PRINT,QUIT;|QUIT[1]}",
    ),
    (
        "BEGIN PROCEDURE P; OPTION FORWARD; PROCEDURE P; P; END.",
        "{FORWARD P[|] ;PROCEDURE P[|] {|P};|_}",
    ),
    (
        "BEGIN INTEGER PROCEDURE P(A); VALUE A; INTEGER A; OPTION EXTERNAL; END.",
        "{EXTERNAL INTEGER P[A|A;INTEGER A] ;|_}",
    ),
    (
        "BEGIN DOUBLE PROCEDURE P(A,B,C); VALUE A,C; INTEGER A,C; ARRAY B; OPTION SPLIT; P:=0D; END.",
        "{PROCEDURE DOUBLE P[A,B,C|A,C;INTEGER A,C;LOGICAL ARRAY B] SPLIT {|P:=0D};|_}",
    ),
    (
        "BEGIN PROCEDURE P; BEGIN INTEGER I; SUBROUTINE S; I:=1; S; RETURN END; P END.",
        "{PROCEDURE P[|] {INTEGER I;SUBROUTINE S[|] I:=1;|S;RETURN};|P}",
    ),
    (
        "BEGIN BYTE SUBROUTINE S(B); BYTE B; BEGIN S:=B END; S(A) END.",
        "{SUBROUTINE BYTE S[B|;BYTE B] {S:=B};|S[A]}",
    ),
    (
        "BEGIN L: M: A; BEGIN B; BEGIN END END END.",
        "{|L:M:A;{B;{_}}}",
    ),
    (
        "BEGIN IF A THEN IF B THEN C ELSE D ELSE E END.",
        "{|{IF A THEN {IF B THEN C ELSE D} ELSE E}}",
    ),
    (
        "BEGIN IF A THEN IF B THEN C ELSE D END.",
        "{|{IF A THEN {IF B THEN C ELSE D}}}",
    ),
    (
        "BEGIN IF A THEN BEGIN IF B THEN C END ELSE D END.",
        "{|{IF A THEN {{IF B THEN C}} ELSE D}}",
    ),
    (
        "BEGIN IF A THEN ELSE; IF <= THEN B END.",
        "{|{IF A THEN _ ELSE _};{IF <= THEN B}}",
    ),
    (
        "BEGIN WHILE A OR B DO C; DO D UNTIL E END.",
        "{|{WHILE (A OR B) DO C};{DO D UNTIL E}}",
    ),
    (
        "BEGIN FOR I:=1 STEP 2 UNTIL 9 DO A(I):=0; FOR J:=K UNTIL -L DO END.",
        "{|{FOR I:=1 STEP 2 UNTIL 9 DO A[I]:=0};{FOR J:=K UNTIL (-L) DO _}}",
    ),
    (
        "BEGIN CASE I OF BEGIN A; ; B END END.",
        "{|{CASE I OF A;_;B}}",
    ),
    (
        "BEGIN GO L; GOTO M; RETURN; P(1,Q(2),@R) END.",
        "{|GO L;GO M;RETURN;P[1,Q[2],@R]}",
    ),
    (
        "BEGIN IF A THEN L: WHILE B DO C ELSE D END.",
        "{|{IF A THEN L:{WHILE B DO C} ELSE D}}",
    ),
    (
        "BEGIN @P:=@A(3); A(1):=B; A.(0:4):=5; A(B).(N:M):=C END.",
        "{|@P:=@A[3];A[1]:=B;A.0:4:=5;A[B].N:M:=C}",
    ),
    (
        "BEGIN MOVE A:=B,(5); MOVE A(1):=\"X\"; MOVE A:=B(2) WHILE ANS END.",
        "{|MOVE A:=B,5;MOVE A[1]:=\"X\";MOVE A:=B[2] WHILE ANS}",
    ),
    (
        "BEGIN MOVE A:=B WHILE A; MOVE A:=B WHILE N; MOVE A:=B WHILE AN; MOVE A:=B WHILE AS END.",
        "{|MOVE A:=B WHILE A;MOVE A:=B WHILE N;MOVE A:=B WHILE AN;MOVE A:=B WHILE AS}",
    ),
    (
        "BEGIN SCAN P UNTIL 13; I:=SCAN A(1) WHILE B+1; J:=MOVE A:=B,(-K) END.",
        "{|SCAN P UNTIL 13;I:=SCAN A[1] WHILE (B+1);J:=MOVE A:=B,(-K)}",
    ),
    (
        "BEGIN A:=B+C*D; A:=(B+C)*D END.",
        "{|A:=(B+(C*D));A:=((B+C)*D)}",
    ),
    (
        "BEGIN A:=B-C-D; A:=B-(C-D); A:=B/C MOD D END.",
        "{|A:=((B-C)-D);A:=(B-(C-D));A:=((B/C) MOD D)}",
    ),
    (
        "BEGIN A:=B OR C AND D OR E END.",
        "{|A:=((B OR (C AND D)) OR E)}",
    ),
    (
        "BEGIN A:=B AND C LOR D XOR E LAND F END.",
        "{|A:=(B AND (C LOR (D XOR (E LAND F))))}",
    ),
    (
        "BEGIN A:=B LAND C=D+1; A:=B<C LAND D END.",
        "{|A:=(B LAND (C=(D+1)));A:=((B<C) LAND D)}",
    ),
    (
        "BEGIN A:=B=C; A:=B<>C; A:=B<C; A:=B>C; A:=B<=C; A:=B>=C END.",
        "{|A:=(B=C);A:=(B<>C);A:=(B<C);A:=(B>C);A:=(B<=C);A:=(B>=C)}",
    ),
    (
        "BEGIN A:=-B*C; A:=-B+C; A:=+B-C END.",
        "{|A:=(-(B*C));A:=((-B)+C);A:=((+B)-C)}",
    ),
    (
        "BEGIN A:=-5*B; A:=-5D+B; A:=-(5); A:=B-5 END.",
        "{|A:=(65531*B);A:=(4294967291D+B);A:=(-5);A:=(B-5)}",
    ),
    (
        "BEGIN A:=-0; A:=-32768; A:=-65535; A:=-4294967295D END.",
        "{|A:=0;A:=32768;A:=1;A:=1D}",
    ),
    // a command inside a DEFINE is in force behind it
    (
        "BEGIN DEFINE T=\n$CONTROL SEGMENT=TWO\nI:=1#; T END.",
        "{|I:=1}@1",
    ),
    (
        "BEGIN A:=-%17&LSL(1); A:=-1.(0:4) END.",
        "{|A:=(65521&LSL 1);A:=(65535.0:4)}",
    ),
    (
        "BEGIN A:=B&ASL(1)&ASR(2)*C&LSR(N) END.",
        "{|A:=(((B&ASL 1)&ASR 2)*(C&LSR N))}",
    ),
    (
        "BEGIN A:=B&CSL(15)+C&CSR(-1) END.",
        "{|A:=((B&CSL 15)+(C&CSR -1))}",
    ),
    (
        "BEGIN A:=NOT NOT B; A:=NOT B&LSL(2); A:=NOT B.(0:4) END.",
        "{|A:=(NOT (NOT B));A:=((NOT B)&LSL 2);A:=(NOT (B.0:4))}",
    ),
    (
        "BEGIN A:=B(C).(1:N); A:=(B+C).(0:1); A:=5.(0:4) END.",
        "{|A:=(B[C].1:N);A:=((B+C).0:1);A:=(5.0:4)}",
    ),
    (
        "BEGIN A:=DOUBLE(B)+5D; A:=INTEGER(LOGICAL(BYTE(C))) END.",
        "{|A:=((DOUBLE B)+5D);A:=(INTEGER (LOGICAL (BYTE C)))}",
    ),
    (
        "BEGIN A:=F; A:=F(1); A:=F(1,B(2),@C,@D(3),TRUE,FALSE) END.",
        "{|A:=F;A:=F[1];A:=F[1,B[2],@C,@D[3],TRUE,FALSE]}",
    ),
    (
        "BEGIN A:=\"A\"; A:=\"\"; A:=\"ABC\"=B END.",
        "{|A:=\"A\";A:=\"\";A:=(\"ABC\"=B)}",
    ),
    (
        "BEGIN A:=((B)); A:=(B=C)=D; A:=((B=C)) END.",
        "{|A:=B;A:=((B=C)=D);A:=(B=C)}",
    ),
    (
        "BEGIN IF A=B,(5) THEN C; IF A(1)<>B(2),(N) OR D THEN E END.",
        "{|{IF (A=B,5) THEN C};{IF ((A[1]<>B[2],N) OR D) THEN E}}",
    ),
    (
        "BEGIN IF A AND B<C,(D+1) AND E=F THEN G END.",
        "{|{IF ((A AND (B<C,(D+1))) AND (E=F)) THEN G}}",
    ),
    (
        "BEGIN WHILE A>=B,(1) DO; DO UNTIL A<=B,(2) OR C>D END.",
        "{|{WHILE (A>=B,1) DO _};{DO _ UNTIL ((A<=B,2) OR (C>D))}}",
    ),
    (
        "BEGIN IF (A=B) OR C THEN D; IF NOT A=B THEN C END.",
        "{|{IF ((A=B) OR C) THEN D};{IF ((NOT A)=B) THEN C}}",
    ),
];

#[test]
fn texts_with_their_trees(rt: HostRuntime) -> Result<(), Fail> {
    compare(&rt, rt.alloc(), &TREES)
}

static FAULTS: [(&str, &str); 45] = [
    ("", "SYNTAX 1 1"),
    ("BEGIN", "SYNTAX 1 6"),
    ("BEGIN\n", "SYNTAX 2 1"),
    ("BEGIN END", "SYNTAX 1 10"),
    ("BEGIN END. X", "SYNTAX 1 12"),
    ("END.", "SYNTAX 1 1"),
    ("BEGIN << x", "OPENCOMMENT 1 7"),
    ("BEGIN COMMENT x", "OPENCOMMENT 1 7"),
    ("BEGIN ? END.", "BADBYTE 1 7"),
    ("$CONTROL\nBEGIN END.", "BADCOMMAND 1 1"),
    ("BEGIN\n$CONTRO USLINIT\nEND.", "BADCOMMAND 2 1"),
    ("BEGIN M:=\"A END.", "OPENSTRING 1 10"),
    ("BEGIN I:=ABCDEFGHIJKLMNOP END.", "NAMETOOLONG 1 10"),
    ("BEGIN I:=65536 END.", "NUMBERTOOLARGE 1 10"),
    ("BEGIN I:=-65536 END.", "NUMBERTOOLARGE 1 11"),
    ("BEGIN DEFINE T=2 END.", "BADDEFINE 1 22"),
    ("BEGIN DEFINE T=2#, END=3#; END.", "BADDEFINE 1 20"),
    // a fault of tokens comes first, wherever it stands
    ("BEGIN I:=; ? END.", "BADBYTE 1 12"),
    ("BEGIN INTEGER I; I:=1 + END.", "SYNTAX 1 25"),
    ("BEGIN DO A UNTIL 5DO END.", "SYNTAX 1 20"),
    ("BEGIN A:=B(1)(2) END.", "SYNTAX 1 14"),
    ("BEGIN IF A THEN B; ELSE C END.", "SYNTAX 1 20"),
    (
        "BEGIN PROCEDURE P; OPTION FORWARD,EXTERNAL; END.",
        "SYNTAX 1 35",
    ),
    ("BEGIN PROCEDURE P; ; END.", "SYNTAX 1 20"),
    (
        "BEGIN PROCEDURE P; BEGIN PROCEDURE Q; RETURN; END; END.",
        "SYNTAX 1 26",
    ),
    ("BEGIN PROCEDURE P; OPTION VIRTUAL; END.", "SYNTAX 1 27"),
    ("BEGIN MOVE A:=B WHILE XY END.", "SYNTAX 1 23"),
    ("BEGIN A:=B=C=D END.", "SYNTAX 1 13"),
    ("BEGIN A:=ASSEMBLE END.", "SYNTAX 1 10"),
    ("BEGIN SUBROUTINE S; RETURN; INTEGER I; END.", "SYNTAX 1 37"),
    ("BEGIN I:=1; INTEGER J; END.", "SYNTAX 1 13"),
    ("BEGIN INTEGER I END.", "SYNTAX 1 17"),
    ("BEGIN POINTER P; END.", "SYNTAX 1 7"),
    ("BEGIN OWN BYTE POINTER P; END.", "SYNTAX 1 16"),
    ("BEGIN EQUATE N=5*3; END.", "SYNTAX 1 17"),
    ("BEGIN A(1,2):=5 END.", "SYNTAX 1 13"),
    ("BEGIN A:=B&ROL(3) END.", "SYNTAX 1 12"),
    ("BEGIN A:=B.C END.", "SYNTAX 1 12"),
    ("BEGIN IF A+1=B,(5) THEN C END.", "SYNTAX 1 15"),
    ("BEGIN FOR A(1):=1 UNTIL 2 DO END.", "SYNTAX 1 12"),
    ("BEGIN CASE A OF B END.", "SYNTAX 1 17"),
    // what a DEFINE stands for has the place of its use
    ("BEGIN DEFINE T=)#;\n A:=(1 T T\nEND.", "SYNTAX 2 10"),
    ("BEGIN DEFINE T=1+#;\nA:=T\nEND.", "SYNTAX 3 1"),
    (
        "BEGIN A:=((((((((((((((((((((((((((((((((((((((((((((((((((((((((((((((((1))))))))))))))))))))))))))))))))))))))))))))))))))))))))))))))))+ END.",
        "SYNTAX 1 141",
    ),
    (
        "BEGIN A:=(((((((((((((((((((((((((((((((((((((((((((((((((((((((((((((((((1+ END.",
        "TOODEEP 1 74",
    ),
];

#[test]
fn texts_and_their_first_faults(rt: HostRuntime) -> Result<(), Fail> {
    compare(&rt, rt.alloc(), &FAULTS)
}
