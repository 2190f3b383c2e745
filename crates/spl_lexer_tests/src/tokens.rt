//! Texts with their tokens or fault, worked by hand from the language's description.

use spl_cuts::LexFault;
use spl_lexer::tokens;
use spl_tree::{Lexed, What};
use std::alloc::{AllocError, Global};
use std::process::Abort;
use std::test::Fail;

/// The marks by their numbers.
const MARKS: [&str; 20] = [
    "(", ")", ",", ";", ":", ".", "=", "<", ">", "+", "-", "*", "/", "&", "@", "#", ":=", "<=",
    ">=", "<>",
];

/// Puts these bytes, which are ASCII, behind a text.
fn put(text: &mut String, bytes: &[u8]) -> Result<(), AllocError> {
    for b in bytes {
        text.push(char::from(*b))?;
    }
    Ok(())
}

/// What stands at a token: a word by its letters, a number in decimal, a double with D, a string in quotes without doubling
/// those in it, a mark as it is written, and the end of the text as `end`.
fn put_sign(text: &mut String, what: &What) -> Result<(), AllocError> {
    match what {
        What::Word(name) => put(text, name.text.as_slice()),
        What::Number(n) => write!(text, "{n}"),
        What::Wide(n) => write!(text, "{n}D"),
        What::Text(chars) => {
            text.push('"')?;
            put(text, chars.bytes.as_slice())?;
            text.push('"')
        }
        What::Mark(m) => text.push_str(MARKS.get(*m as usize).copied().unwrap_or("?")),
        What::End => text.push_str("end"),
    }
}

/// The tokens of a text with blanks between them, or its fault's kind, line and column.
fn shown(alloc: Global, cut: &Result<Lexed, LexFault>) -> Result<String, AllocError> {
    let mut text = String::new(alloc);
    match cut {
        Ok(lexed) => {
            for token in &lexed.tokens {
                if !text.is_empty() {
                    text.push(' ')?;
                }
                put_sign(&mut text, &token.what)?;
            }
        }
        Err(fault) => write!(
            text,
            "{:?} {} {}",
            fault.kind, fault.at.line, fault.at.column
        )?,
    }
    Ok(text)
}

/// Each text has these tokens, or this fault.
fn compare(rt: &impl Abort, alloc: Global, cases: &[(&[u8], &str)]) -> Result<(), Fail> {
    for (text, wanted) in cases {
        assert!(rt; text.len() <= 1048576);
        let cut = tokens(alloc, text, 1);
        assert_eq!(rt; shown(alloc, &cut)?.as_str(), *wanted);
    }
    Ok(())
}

#[test]
fn words_and_marks(rt: HostRuntime) -> Result<(), Fail> {
    // Words in capitals, and each mark the longest.
    let cases: [(&[u8], &str); 17] = [
        (
            b"and array assemble begin byte case do double else end entry equate false for global go goto if integer intrinsic label land logical long lor mod move not of option or own pointer procedure real return scan step subroutine switch then to tos true until value while xor",
            "AND ARRAY ASSEMBLE BEGIN BYTE CASE DO DOUBLE ELSE END ENTRY EQUATE FALSE FOR GLOBAL GO GOTO IF INTEGER INTRINSIC LABEL LAND LOGICAL LONG LOR MOD MOVE NOT OF OPTION OR OWN POINTER PROCEDURE REAL RETURN SCAN STEP SUBROUTINE SWITCH THEN TO TOS TRUE UNTIL VALUE WHILE XOR end",
        ),
        (b"", "end"),
        (b" \t\r\n", "end"),
        (b"begin end.", "BEGIN END . end"),
        (b"x'1", "X'1 end"),
        (b"A1B2'C3", "A1B2'C3 end"),
        (b"ABCDEFGHIJKLMNO", "ABCDEFGHIJKLMNO end"),
        (b"ABCDEFGHIJKLMNOP", "NameTooLong 1 1"),
        (b" \n  a23456789012345b", "NameTooLong 2 3"),
        (
            b"( ) , ; : . = < > + - * / & @ # := <= >= <>",
            "( ) , ; : . = < > + - * / & @ # := <= >= <> end",
        ),
        (b":=:=<=<>>=<>=", ":= := <= <> >= <> = end"),
        (b"A<B", "A < B end"),
        (b"<==", "<= = end"),
        (b"=<>", "= <> end"),
        (b":.(", ": . ( end"),
        (b"><", "> < end"),
        (b"< <", "< < end"),
    ];
    compare(&rt, rt.alloc(), &cases)
}

#[test]
fn numbers(rt: HostRuntime) -> Result<(), Fail> {
    // Numbers at their limits in both bases, with D and without.
    let cases: [(&[u8], &str); 22] = [
        (b"0", "0 end"),
        (b"65535", "65535 end"),
        (b"A 65536", "NumberTooLarge 1 3"),
        (b"65536D", "65536D end"),
        (b"4294967295d", "4294967295D end"),
        (b"4294967296D", "NumberTooLarge 1 1"),
        (b"%177777", "65535 end"),
        (b"%200000", "NumberTooLarge 1 1"),
        (b"%200000D", "65536D end"),
        (b"%37777777777D", "4294967295D end"),
        (b"%40000000000D", "NumberTooLarge 1 1"),
        (b"%8", "BadByte 1 1"),
        (b"%", "BadByte 1 1"),
        (b"% 7", "BadByte 1 1"),
        (b"%D", "BadByte 1 1"),
        (b"%78", "7 8 end"),
        (b"5 D", "5 D end"),
        (b"5DO", "5D O end"),
        (b"00000000000000000000007", "7 end"),
        (b"99999999999999999999999999", "NumberTooLarge 1 1"),
        (b"1A", "1 A end"),
        (b"12.5", "12 . 5 end"),
    ];
    compare(&rt, rt.alloc(), &cases)
}

#[test]
fn strings(rt: HostRuntime) -> Result<(), Fail> {
    // Strings stand between quotes on one line.
    let cases: [(&[u8], &str); 10] = [
        (b"\"\"", "\"\" end"),
        (b"\"\"\"\"", "\"\"\" end"),
        (b"\"\"\"", "OpenString 1 1"),
        (b"\"a b\"", "\"a b\" end"),
        (b"\"A\"\"B\" \"C\"", "\"A\"B\" \"C\" end"),
        (b"A \"B\n\"", "OpenString 1 3"),
        (b"\"AB", "OpenString 1 1"),
        (b"\"A\r\nB\"", "OpenString 1 1"),
        (b"\"A\rB\"", "\"A\rB\" end"),
        (b"\"\t<<$;\"", "\"\t<<$;\" end"),
    ];
    compare(&rt, rt.alloc(), &cases)
}

#[test]
fn comments(rt: HostRuntime) -> Result<(), Fail> {
    // Comments of both kinds.
    let cases: [(&[u8], &str); 14] = [
        (b"A<<B>>C", "A C end"),
        (b"<<A>", "OpenComment 1 1"),
        (b"<<A> >>B", "B end"),
        (b"<<>", "OpenComment 1 1"),
        (b"<<>>>", "> end"),
        (b"<<<A>>", "end"),
        (b"A <<\n\"", "OpenComment 1 3"),
        (b"COMMENT A; B", "B end"),
        (b"comment;B", "B end"),
        (b"COMMENT", "OpenComment 1 1"),
        (b"COMMENTS COMMENT'", "COMMENTS COMMENT' end"),
        (b"COMMENT <<;>>", "> > end"),
        (b"<<COMMENT>>;", "; end"),
        (b"X COMMENT\n\n;Y", "X Y end"),
    ];
    compare(&rt, rt.alloc(), &cases)
}

#[test]
fn command_lines(rt: HostRuntime) -> Result<(), Fail> {
    // Lines that begin with $.
    let cases: [(&[u8], &str); 19] = [
        (b"$PAGE", "end"),
        (b"$title \"x\nA", "A end"),
        (b"$PAGEX", "BadCommand 1 1"),
        (b"$ PAGE", "BadCommand 1 1"),
        (b"$", "BadCommand 1 1"),
        (b" $PAGE", "BadByte 1 2"),
        (b"$CONTROL", "BadCommand 1 1"),
        (b"$CONTROL USLINIT", "end"),
        (b"$CONTROL\tA , B=1,C = D\r\nE", "E end"),
        (b"$CONTROL A,,B", "BadCommand 1 1"),
        (b"$CONTROL A B", "BadCommand 1 1"),
        (b"$CONTROL 1", "BadCommand 1 1"),
        (b"$CONTROL A=%7", "BadCommand 1 1"),
        (b"$CONTROL A=B=C", "BadCommand 1 1"),
        (b"$CONTROL A=", "BadCommand 1 1"),
        (b"$CONTROL ABCDEFGHIJKLMNOP", "BadCommand 1 1"),
        (b"$CONTROL A=ABCDEFGHIJKLMNO", "end"),
        (b"A\n$X\nB", "BadCommand 2 1"),
        (b"<<\n$X>>A", "A end"),
    ];
    compare(&rt, rt.alloc(), &cases)
}

#[test]
fn bytes_that_are_allowed_nowhere(rt: HostRuntime) -> Result<(), Fail> {
    // Bad bytes alone and in comments, command lines and strings.
    let cases: [(&[u8], &str); 15] = [
        (b"A\x07", "BadByte 1 2"),
        (b"\x80", "BadByte 1 1"),
        (b"A ~", "BadByte 1 3"),
        (b"'A", "BadByte 1 1"),
        (b"A?B", "BadByte 1 2"),
        (b"\"A\x07\x08\"", "BadByte 1 3"),
        (b"\"A\x07", "OpenString 1 1"),
        // the byte comes before the DEFINE that the string breaks
        (b"DEFINE \"a\x80b\"=1#;", "BadByte 1 10"),
        (b"<<A\n\x80>>", "BadByte 2 1"),
        (b"<<\x80", "OpenComment 1 1"),
        (b"COMMENT \x01;", "BadByte 1 9"),
        (b"$PAGE \x7f", "BadByte 1 7"),
        (b"$X \x01", "BadCommand 1 1"),
        (b"$CONTROL A\x01B", "BadCommand 1 1"),
        (b"$CONTROL A\x01", "BadByte 1 11"),
    ];
    compare(&rt, rt.alloc(), &cases)
}

#[test]
fn defines(rt: HostRuntime) -> Result<(), Fail> {
    // DEFINEs, and DEFINEs in DEFINEs.
    let cases: [(&[u8], &str); 19] = [
        (b"define a = b + 1 # ; a", "B + 1 end"),
        (b"DEFINE A=1#,B=A A#; B", "1 1 end"),
        (b"DEFINE A=#; A X", "X end"),
        (b"A DEFINE A=2#; A", "A 2 end"),
        (b"DEFINE A=A#; A", "A end"),
        (b"DEFINE A=B#,B=1#; A", "B end"),
        (b"DEFINE A=1#; DEFINE B=A#;; B", "; 1 end"),
        (b"DEFINE A=\"x\"#; A A", "\"x\" \"x\" end"),
        (b"DEFINE A=<<#>>1\n$CONTROL X\n#; A", "1 end"),
        (b"DEFINE A=1#,A=2#;", "BadDefine 1 13"),
        (b"DEFINE BEGIN=1#;", "BadDefine 1 8"),
        (b"DEFINE 1=2#;", "BadDefine 1 8"),
        (b"DEFINE A 1#;", "BadDefine 1 10"),
        (b"DEFINE A=1;\n", "BadDefine 2 1"),
        (b"DEFINE A=1#", "BadDefine 1 12"),
        (b"DEFINE A=1#.", "BadDefine 1 12"),
        (b"DEFINE", "BadDefine 1 7"),
        (b"DEFINE A=DEFINE B=1#;#;", "BadDefine 1 10"),
        (b"DEFINE A==#,B A 1#;", "BadDefine 1 15"),
    ];
    compare(&rt, rt.alloc(), &cases)
}

#[test]
fn most_tokens(rt: HostRuntime) -> Result<(), Fail> {
    // At most 262,144 tokens arise: those that these DEFINEs keep are 262,142.
    let cases: [(&[u8], &str); 5] = [
        (
            b"DEFINE A=X X#,B=A A#,C=B B#,D=C C#,E=D D#,F=E E#,G=F F#,H=G G#,I=H H#,J=I I#,K=J J#,L=K K#,M=L L#,N=M M#,O=N N#,P=O O#,Q=P P#; Y Y",
            "Y Y end",
        ),
        (
            b"DEFINE A=X X#,B=A A#,C=B B#,D=C C#,E=D D#,F=E E#,G=F F#,H=G G#,I=H H#,J=I I#,K=J J#,L=K K#,M=L L#,N=M M#,O=N N#,P=O O#,Q=P P#; Y Y Y",
            "TooManyTokens 1 132",
        ),
        (
            b"DEFINE A=X X#,B=A A#,C=B B#,D=C C#,E=D D#,F=E E#,G=F F#,H=G G#,I=H H#,J=I I#,K=J J#,L=K K#,M=L L#,N=M M#,O=N N#,P=O O#,Q=P P#; A",
            "X X end",
        ),
        (
            b"DEFINE A=X X#,B=A A#,C=B B#,D=C C#,E=D D#,F=E E#,G=F F#,H=G G#,I=H H#,J=I I#,K=J J#,L=K K#,M=L L#,N=M M#,O=N N#,P=O O#,Q=P P#,R=Q",
            "TooManyTokens 1 129",
        ),
        (
            b"DEFINE A=X X#,B=A A#,C=B B#,D=C C#,E=D D#,F=E E#,G=F F#,H=G G#,I=H H#,J=I I#,K=J J#,L=K K#,M=L L#,N=M M#,O=N N#,P=O O#,Q=P P#; Y A",
            "TooManyTokens 1 130",
        ),
    ];
    compare(&rt, rt.alloc(), &cases)
}

/// The reserved words of the language.
static RESERVED: [&str; 50] = [
    "AND",
    "ARRAY",
    "ASSEMBLE",
    "BEGIN",
    "BYTE",
    "CASE",
    "COMMENT",
    "DEFINE",
    "DO",
    "DOUBLE",
    "ELSE",
    "END",
    "ENTRY",
    "EQUATE",
    "FALSE",
    "FOR",
    "GLOBAL",
    "GO",
    "GOTO",
    "IF",
    "INTEGER",
    "INTRINSIC",
    "LABEL",
    "LAND",
    "LOGICAL",
    "LONG",
    "LOR",
    "MOD",
    "MOVE",
    "NOT",
    "OF",
    "OPTION",
    "OR",
    "OWN",
    "POINTER",
    "PROCEDURE",
    "REAL",
    "RETURN",
    "SCAN",
    "STEP",
    "SUBROUTINE",
    "SWITCH",
    "THEN",
    "TO",
    "TOS",
    "TRUE",
    "UNTIL",
    "VALUE",
    "WHILE",
    "XOR",
];

#[test]
fn reserved_words_have_no_defines(rt: HostRuntime) -> Result<(), Fail> {
    let alloc = rt.alloc();
    for word in RESERVED {
        let mut text = Vec::from_slice(alloc, b"DEFINE ")?;
        text.extend_from_slice(word.as_bytes())?;
        text.extend_from_slice(b"=1#;\nX")?;
        assert!(rt; text.len() <= 1048576);
        // The word COMMENT is a comment up to the semicolon, so the name is that behind it.
        let wanted = if word == "COMMENT" {
            "BadDefine 2 2"
        } else {
            "BadDefine 1 8"
        };
        let cut = tokens(alloc, &text, 1);
        assert_eq!(rt; shown(alloc, &cut)?.as_str(), wanted);
    }
    Ok(())
}

/// The places of the tokens with the numbers of their segments, the names of the segments, and whether a unit is a
/// subprogram.
fn shown_places(alloc: Global, lexed: &Lexed) -> Result<String, AllocError> {
    let mut text = String::new(alloc);
    for token in &lexed.tokens {
        write!(
            text,
            "{}:{}/{} ",
            token.at.line, token.at.column, token.segment
        )?;
    }
    for name in &lexed.segments {
        put(&mut text, name.text.as_slice())?;
        text.push(' ')?;
    }
    write!(text, "{} {}", lexed.subprogram, lexed.tokens.len())?;
    Ok(text)
}

#[test]
fn places_and_segments(rt: HostRuntime) -> Result<(), Fail> {
    let alloc = rt.alloc();
    let cases: [(&[u8], &str); 12] = [
        (b"A B\n C", "1:1/0 1:3/0 2:2/0 2:3/0 SEG' false 4"),
        (b"\tA\r\n<<\n>>B", "1:2/0 3:3/0 3:4/0 SEG' false 3"),
        (b"$CONTROL SEGMENT=main\nA", "2:1/0 2:2/0 MAIN false 2"),
        (
            b"A\n$CONTROL SEGMENT=x1\nB\n$CONTROL segment = SEG'\nC",
            "1:1/0 3:1/1 5:1/0 5:2/0 SEG' X1 false 4",
        ),
        (
            b"$CONTROL SEGMENT=A\n$CONTROL SEGMENT=B",
            "2:19/0 B false 1",
        ),
        (b"$CONTROL SEGMENT=A,SEGMENT=B\nX", "2:1/0 2:2/0 B false 2"),
        (
            b"DEFINE A=X \"Y\"#;\n$CONTROL SEGMENT=S\n  A",
            "3:3/0 3:3/0 3:4/0 S false 3",
        ),
        (b"$CONTROL SUBPROGRAM\n", "2:1/0 SEG' true 1"),
        (b"$CONTROL subprogram, USLINIT", "1:29/0 SEG' true 1"),
        (b"$CONTROL SUBPROGRAM=X", "1:22/0 SEG' false 1"),
        (b"$CONTROL SEGMENT", "1:17/0 SEG' false 1"),
        (b"$CONTROL SEGMENT=5\nA", "2:1/0 2:2/0 SEG' false 2"),
    ];
    for (text, wanted) in cases {
        assert!(rt; text.len() <= 1048576);
        let lexed = tokens(alloc, text, 3)?;
        assert!(rt; lexed.tokens.iter().all(|token| token.at.unit == 3));
        assert_eq!(rt; shown_places(alloc, &lexed)?.as_str(), wanted);
    }
    Ok(())
}
