//! Reports, refusals and listings worked by hand.

use arrayvec::ArrayVec;
use hp_program::Program;
use hp_word::{Ending, Trap};
use job_report::{
    FileRefusal, ModulesRefusal, Point, Refusal, UnitRefusal, listing, refusal_line, report,
    summary,
};
use spl_tree::{At, Chars, FaultKind, Name};
use std::alloc::{AllocError, Global};
use std::process::Abort;
use std::test::Fail;

/// The name of a text, up to its fifteenth character.
fn name(text: &str) -> Name {
    let mut name = Name {
        text: ArrayVec::new(),
    };
    for byte in text.as_bytes() {
        let _ = name.text.try_push(*byte);
    }
    name
}

/// A session that was reported: its program, what it printed, how it ended and its steps.
type Row = (&'static str, &'static [u8], Ending, u64);

fn point(alloc: Global, row: &Row) -> Result<Point, AllocError> {
    let (program, printed, ending, steps) = *row;
    Ok(Point {
        name: name(program),
        printed: Chars {
            bytes: Vec::from_slice(alloc, printed)?,
        },
        ending,
        steps,
        fills: 3,
        spills: 0,
    })
}

fn add_points(points: &mut Vec<Point>, alloc: Global, rows: &[Row]) -> Result<(), AllocError> {
    for row in rows {
        points.push(point(alloc, row)?)?;
    }
    Ok(())
}

fn report_of(
    alloc: Global,
    rows: &[Row],
    stats: Option<(u64, u64)>,
) -> Result<Vec<u8>, AllocError> {
    let mut points = Vec::new(alloc);
    match add_points(&mut points, alloc, rows) {
        Ok(()) => report(alloc, &points, stats),
        Err(error) => Err(error),
    }
}

fn compare(rt: &impl Abort, text: &[u8], wanted: &str) {
    assert_eq!(rt; text, wanted.as_bytes());
}

fn reports(
    rt: &impl Abort,
    alloc: Global,
    rows: &[Row],
    stats: Option<(u64, u64)>,
    wanted: &str,
) -> Result<(), Fail> {
    let text = report_of(alloc, rows, stats)?;
    compare(rt, &text, wanted);
    Ok(())
}

/// Sessions with each kind of ending, and with all that can stand at the end of what was printed.
static ENDED: [Row; 6] = [
    ("A", b"", Ending::Quit(5), 12),
    ("A", b"HELLO\n", Ending::Terminated, 12),
    ("PROG8888", b"HELLO", Ending::Running, 12),
    ("B", b"\n", Ending::Quit(-32768), 12),
    ("B", b"\n\nX", Ending::Trapped(Trap::OutputLimit), 12),
    ("B", b"", Ending::Trapped(Trap::Mode), 12),
];

#[test]
fn a_report_tells_each_session(rt: HostRuntime) -> Result<(), Fail> {
    reports(
        &rt,
        rt.alloc(),
        &ENDED,
        None,
        "SESSION 1 A BYTES 0
END 1 QUIT 5
SESSION 2 A BYTES 6
HELLO
END 2 TERMINATED
SESSION 3 PROG8888 BYTES 5
HELLO
END 3 RUNNING
SESSION 4 B BYTES 1

END 4 QUIT -32768
SESSION 5 B BYTES 3


X
END 5 TRAP 9 OUTPUT LIMIT
SESSION 6 B BYTES 0
END 6 TRAP 10 MODE
",
    )
}

static COUNTED: [Row; 2] = [
    ("A", b"X", Ending::Quit(0), 12),
    (
        "A",
        b"",
        Ending::Trapped(Trap::IntegerOverflow),
        18446744073709551615,
    ),
];

#[test]
fn with_statistics_each_session_has_its_counts(rt: HostRuntime) -> Result<(), Fail> {
    reports(
        &rt,
        rt.alloc(),
        &COUNTED,
        Some((40, 1)),
        "SESSION 1 A BYTES 1
X
END 1 QUIT 0
STATS 1 STEPS 12 FILLS 3 SPILLS 0
SESSION 2 A BYTES 0
END 2 TRAP 1 INTEGER OVERFLOW
STATS 2 STEPS 18446744073709551615 FILLS 3 SPILLS 0
STATS TURNS 40 LOADS 1
",
    )?;
    reports(&rt, rt.alloc(), &[], None, "")
}

static GENERATED: [Row; 2] = [
    ("G1", b"1679\n", Ending::Terminated, 12),
    ("G2", b"X", Ending::Running, 12),
];

fn summary_of(alloc: Global, rows: &[Row]) -> Result<Vec<u8>, AllocError> {
    let mut points = Vec::new(alloc);
    match add_points(&mut points, alloc, rows) {
        Ok(()) => summary(alloc, 65535, 55327, &points),
        Err(error) => Err(error),
    }
}

#[test]
fn a_summary_has_the_sessions_behind_its_line(rt: HostRuntime) -> Result<(), Fail> {
    let text = summary_of(rt.alloc(), &GENERATED)?;
    compare(
        &rt,
        &text,
        "GEN 65535 BYTES 55327
SESSION 1 G1 BYTES 5
1679
END 1 TERMINATED
SESSION 2 G2 BYTES 1
X
END 2 RUNNING
",
    );
    Ok(())
}

/// The place at which the units below are refused.
fn place() -> At {
    At {
        unit: 2,
        line: 30,
        column: 400,
    }
}

fn unit(fault: UnitRefusal) -> Refusal {
    Refusal::Unit {
        program: name("A"),
        at: place(),
        fault,
    }
}

fn modules(fault: ModulesRefusal) -> Refusal {
    Refusal::Modules {
        program: name("AB"),
        fault,
    }
}

fn line_of(alloc: Global, refusal: Refusal) -> Result<Vec<u8>, AllocError> {
    refusal_line(alloc, &refusal)
}

fn tells(rt: &impl Abort, alloc: Global, refusal: Refusal, wanted: &str) -> Result<(), Fail> {
    let line = line_of(alloc, refusal)?;
    compare(rt, &line, wanted);
    Ok(())
}

static FAULTS: [(UnitRefusal, &str); 12] = [
    (
        UnitRefusal::Text(FaultKind::BadByte),
        "REFUSED PROGRAM A UNIT 2 LINE 30 COLUMN 400 BADBYTE\n",
    ),
    (
        UnitRefusal::Text(FaultKind::BadCommand),
        "REFUSED PROGRAM A UNIT 2 LINE 30 COLUMN 400 BADCOMMAND\n",
    ),
    (
        UnitRefusal::Text(FaultKind::OpenString),
        "REFUSED PROGRAM A UNIT 2 LINE 30 COLUMN 400 OPENSTRING\n",
    ),
    (
        UnitRefusal::Text(FaultKind::OpenComment),
        "REFUSED PROGRAM A UNIT 2 LINE 30 COLUMN 400 OPENCOMMENT\n",
    ),
    (
        UnitRefusal::Text(FaultKind::NameTooLong),
        "REFUSED PROGRAM A UNIT 2 LINE 30 COLUMN 400 NAMETOOLONG\n",
    ),
    (
        UnitRefusal::Text(FaultKind::NumberTooLarge),
        "REFUSED PROGRAM A UNIT 2 LINE 30 COLUMN 400 NUMBERTOOLARGE\n",
    ),
    (
        UnitRefusal::Text(FaultKind::BadDefine),
        "REFUSED PROGRAM A UNIT 2 LINE 30 COLUMN 400 BADDEFINE\n",
    ),
    (
        UnitRefusal::Text(FaultKind::TooManyTokens),
        "REFUSED PROGRAM A UNIT 2 LINE 30 COLUMN 400 TOOMANYTOKENS\n",
    ),
    (
        UnitRefusal::Text(FaultKind::Syntax),
        "REFUSED PROGRAM A UNIT 2 LINE 30 COLUMN 400 SYNTAX\n",
    ),
    (
        UnitRefusal::Text(FaultKind::TooDeep),
        "REFUSED PROGRAM A UNIT 2 LINE 30 COLUMN 400 TOODEEP\n",
    ),
    (
        UnitRefusal::Rule(28),
        "REFUSED PROGRAM A UNIT 2 LINE 30 COLUMN 400 RULE 28\n",
    ),
    (
        UnitRefusal::Limit(5),
        "REFUSED PROGRAM A UNIT 2 LINE 30 COLUMN 400 LIMIT 5\n",
    ),
];

#[test]
fn a_unit_is_refused_at_its_place(rt: HostRuntime) -> Result<(), Fail> {
    for (fault, wanted) in &FAULTS {
        tells(&rt, rt.alloc(), unit(*fault), wanted)?;
    }
    Ok(())
}

#[test]
fn modules_are_refused_by_name(rt: HostRuntime) -> Result<(), Fail> {
    let alloc = rt.alloc();
    tells(
        &rt,
        alloc,
        modules(ModulesRefusal::NoMain),
        "REFUSED PROGRAM AB SEGMENTER NOMAIN\n",
    )?;
    tells(
        &rt,
        alloc,
        modules(ModulesRefusal::TwoMains),
        "REFUSED PROGRAM AB SEGMENTER TWOMAINS\n",
    )?;
    tells(
        &rt,
        alloc,
        modules(ModulesRefusal::Doubled(name("P'1"))),
        "REFUSED PROGRAM AB SEGMENTER DOUBLED P'1\n",
    )?;
    tells(
        &rt,
        alloc,
        modules(ModulesRefusal::Unresolved(name("P"))),
        "REFUSED PROGRAM AB SEGMENTER UNRESOLVED P\n",
    )?;
    tells(
        &rt,
        alloc,
        modules(ModulesRefusal::SegmentsFull),
        "REFUSED PROGRAM AB SEGMENTER SEGMENTSFULL\n",
    )?;
    tells(
        &rt,
        alloc,
        modules(ModulesRefusal::EntriesFull(name("ONE"))),
        "REFUSED PROGRAM AB SEGMENTER ENTRIESFULL ONE\n",
    )?;
    tells(
        &rt,
        alloc,
        modules(ModulesRefusal::SegmentFull(name("TWO"))),
        "REFUSED PROGRAM AB SEGMENTER SEGMENTFULL TWO\n",
    )
}

/// What is wrong with a program file, and at which byte.
static FILES: [(FileRefusal, u32, &str); 5] = [
    (FileRefusal::Truncated, 0, "REFUSED FILE TRUNCATED 0\n"),
    (FileRefusal::Head, 12, "REFUSED FILE HEAD 12\n"),
    (FileRefusal::Segment, 22, "REFUSED FILE SEGMENT 22\n"),
    (FileRefusal::Trailing, 24, "REFUSED FILE TRAILING 24\n"),
    (FileRefusal::Label, 18, "REFUSED FILE LABEL 18\n"),
];

fn file(fault: FileRefusal, byte: u32) -> Refusal {
    Refusal::File { fault, byte }
}

#[test]
fn jobs_sizes_and_files_are_refused(rt: HostRuntime) -> Result<(), Fail> {
    let alloc = rt.alloc();
    let job = Refusal::Job {
        line: 1048577,
        rule: 13,
    };
    tells(&rt, alloc, job, "REFUSED JOB LINE 1048577 RULE 13\n")?;
    let stack = Refusal::Stack {
        session: 0,
        need: 105,
        given: 64,
    };
    tells(
        &rt,
        alloc,
        stack,
        "REFUSED STACK SESSION 1 NEED 105 GIVEN 64\n",
    )?;
    let memory = Refusal::Memory {
        need: 1090,
        given: 64,
    };
    tells(&rt, alloc, memory, "REFUSED MEMORY NEED 1090 GIVEN 64\n")?;
    for (fault, byte, wanted) in &FILES {
        tells(&rt, alloc, file(*fault, *byte), wanted)?;
    }
    Ok(())
}

fn add_segments(
    words: &mut Vec<Vec<u16>>,
    alloc: Global,
    segments: &[&[u16]],
) -> Result<(), AllocError> {
    for segment in segments {
        words.push(Vec::from_slice(alloc, segment)?)?;
    }
    Ok(())
}

/// The program of these segments, whose main entry is the first of segment 0.
fn program(
    alloc: Global,
    segments: &[&[u16]],
    globals: &[u16],
) -> Result<Option<Program>, AllocError> {
    let globals = Vec::from_slice(alloc, globals)?;
    let mut words = Vec::new(alloc);
    match add_segments(&mut words, alloc, segments) {
        Ok(()) => Ok(Program::new(words, 0, 1, globals).ok()),
        Err(error) => Err(error),
    }
}

/// The listing of a program: nothing where these segments make none.
fn listing_of(alloc: Global, segments: &[&[u16]], globals: &[u16]) -> Result<Vec<u8>, AllocError> {
    match program(alloc, segments, globals)? {
        Some(program) => listing(alloc, &program),
        None => Ok(Vec::new(alloc)),
    }
}

fn lists(
    rt: &impl Abort,
    alloc: Global,
    segments: &[&[u16]],
    globals: &[u16],
    wanted: &str,
) -> Result<(), Fail> {
    let text = listing_of(alloc, segments, globals)?;
    compare(rt, &text, wanted);
    Ok(())
}

static ONE_CALL: [&[u16]; 1] = [&[0x3002, 0x87ff, 0x0000, 0x0002]];

#[test]
fn a_program_of_one_call(rt: HostRuntime) -> Result<(), Fail> {
    lists(
        &rt,
        rt.alloc(),
        &ONE_CALL,
        &[],
        "PROGRAM VERSION 1 SEGMENTS 1 MAIN 0 ENTRY 1 DATA 0
SEGMENT 0 WORDS 4 ENTRIES 2
000000 030002 PCAL
ENTRY 1 LOCAL 000000
ENTRY 2 GATE TERMINATE
",
    )
}

static CALLS: [&[u16]; 3] = [
    &[
        0x3002, 0x3100, 0x88ff, 0x81ff, 0x8201, 0x8100, 0x0001, 0x0005,
    ],
    &[0x0000, 0x0000, 0x82ff, 0x0002],
    &[0x86ff, 0x85ff, 0x84ff, 0x83ff, 0x0004],
];

static DATA: [u16; 9] = [65535, 8, 0, 0, 0, 0, 0, 0, 0o123456];

#[test]
fn data_segments_and_entries(rt: HostRuntime) -> Result<(), Fail> {
    lists(
        &rt,
        rt.alloc(),
        &CALLS,
        &DATA,
        "PROGRAM VERSION 1 SEGMENTS 3 MAIN 0 ENTRY 1 DATA 9
DATA 000000 177777
DATA 000001 000010
DATA 000002 000000
DATA 000003 000000
DATA 000004 000000
DATA 000005 000000
DATA 000006 000000
DATA 000007 000000
DATA 000010 123456
SEGMENT 0 WORDS 8 ENTRIES 5
000000 030002 PCAL
000001 030400 EXIT
ENTRY 1 LOCAL 000001
ENTRY 2 SEGMENT 0 ENTRY 1
ENTRY 3 SEGMENT 1 ENTRY 2
ENTRY 4 GATE PRINT
ENTRY 5 GATE QUIT
SEGMENT 1 WORDS 4 ENTRIES 2
000000 000000 NOP,NOP
ENTRY 1 GATE READ
ENTRY 2 LOCAL 000000
SEGMENT 2 WORDS 5 ENTRIES 4
ENTRY 1 GATE ASCII
ENTRY 2 GATE DASCII
ENTRY 3 GATE BINARY
ENTRY 4 GATE DBINARY
",
    )
}

/// Words, and behind them a table of one entry.
static PAGE_WORDS: [u16; 127] = [
    0o000007, 0o000110, 0o000211, 0o000312, 0o000415, 0o000516, 0o000617, 0o000720, 0o001021,
    0o001122, 0o001223, 0o001524, 0o001625, 0o001726, 0o002027, 0o002131, 0o002232, 0o002333,
    0o002434, 0o002535, 0o002636, 0o002737, 0o003140, 0o003241, 0o003342, 0o003443, 0o003544,
    0o003645, 0o003746, 0o004056, 0o004160, 0o004261, 0o004362, 0o004463, 0o004564, 0o004665,
    0o005666, 0o006067, 0o006170, 0o006274, 0o006375, 0o006476, 0o006500, 0o006601, 0o006702,
    0o007003, 0o007404, 0o007505, 0o007606, 0o000000, 0o002000, 0o000020, 0o010001, 0o010102,
    0o010203, 0o010304, 0o010405, 0o010506, 0o011010, 0o011151, 0o011212, 0o011353, 0o011414,
    0o011555, 0o011616, 0o011757, 0o012020, 0o012161, 0o012222, 0o020001, 0o020002, 0o020400,
    0o021003, 0o021406, 0o022011, 0o022414, 0o023017, 0o023422, 0o024025, 0o024430, 0o025033,
    0o025514, 0o026114, 0o026444, 0o027047, 0o027452, 0o030000, 0o030402, 0o031004, 0o031406,
    0o032010, 0o032412, 0o033014, 0o033416, 0o034020, 0o034401, 0o035000, 0o035406, 0o036000,
    0o036400, 0o037001, 0o041005, 0o040007, 0o051411, 0o050004, 0o054004, 0o061001, 0o071002,
    0o101003, 0o111604, 0o120005, 0o121006, 0o131707, 0o140010, 0o142010, 0o141111, 0o150012,
    0o151013, 0o160014, 0o161015, 0o171016, 0o170016, 0o001300, 0o037400, 0o020003, 0, 1,
];

/// Their listing: each stack operation on the left and on the right, each other instruction once, and what is no
/// instruction.
static PAGE: &str = "\
PROGRAM VERSION 1 SEGMENTS 1 MAIN 0 ENTRY 1 DATA 0
SEGMENT 0 WORDS 127 ENTRIES 1
000000 000007 NOP,DZRO
000001 000110 DELB,DCMP
000002 000211 DDEL,DADD
000003 000312 ZROX,DSUB
000004 000415 INCX,DNEG
000005 000516 DECX,DXCH
000006 000617 ZERO,CMP
000007 000720 DZRO,ADD
000010 001021 DCMP,SUB
000011 001122 DADD,MPY
000012 001223 DSUB,DIV
000013 001524 DNEG,NEG
000014 001625 DXCH,TEST
000015 001726 CMP,STBX
000016 002027 ADD,DTST
000017 002131 SUB,BTST
000020 002232 MPY,XCH
000021 002333 DIV,INCA
000022 002434 NEG,DECA
000023 002535 TEST,XAX
000024 002636 STBX,ADAX
000025 002737 DTST,ADXA
000026 003140 BTST,DEL
000027 003241 XCH,ZROB
000030 003342 INCA,LDXB
000031 003443 DECA,STAX
000032 003544 XAX,LDXA
000033 003645 ADAX,DUP
000034 003746 ADXA,DDUP
000035 004056 DEL,CAB
000036 004160 ZROB,LCMP
000037 004261 LDXB,LADD
000040 004362 STAX,LSUB
000041 004463 LDXA,LMPY
000042 004564 DUP,LDIV
000043 004665 DDUP,NOT
000044 005666 CAB,OR
000045 006067 LCMP,XOR
000046 006170 LADD,AND
000047 006274 LSUB,INCB
000050 006375 LMPY,DECB
000051 006476 LDIV,XBX
000052 006500 NOT,NOP
000053 006601 OR,DELB
000054 006702 XOR,DDEL
000055 007003 AND,ZROX
000056 007404 INCB,INCX
000057 007505 DECB,DECX
000060 007606 XBX,ZERO
000061 000000 NOP,NOP
000062 002000 ADD,NOP
000063 000020 NOP,ADD
000064 010001 ASL
000065 010102 ASR
000066 010203 LSL
000067 010304 LSR
000070 010405 CSL
000071 010506 CSR
000072 011010 IABZ
000073 011151 DABZ
000074 011212 IXBZ
000075 011353 DXBZ
000076 011414 CPRB
000077 011555 BRO
000100 011616 BRE
000101 011757 BCY
000102 012020 BNCY
000103 012161 BOV
000104 012222 BNOV
000105 020001 SPLT
000106 020002 JOIN
000107 020400 LDI
000110 021003 LDXI
000111 021406 CMPI
000112 022011 ADDI
000113 022414 SUBI
000114 023017 MPYI
000115 023422 DIVI
000116 024025 LDNI
000117 024430 LDXN
000120 025033 CMPN
000121 025514 EXF
000122 026114 DPF
000123 026444 ANDI
000124 027047 ORI
000125 027452 XORI
000126 030000 PCAL
000127 030402 EXIT
000130 031004 SXIT
000131 031406 SCAL
000132 032010 ADXI
000133 032412 SBXI
000134 033014 ROOM
000135 033416 ADDS
000136 034020 SUBS
000137 034401 MOVE
000140 035000 MVB
000141 035406 MVBW
000142 036000 SCW
000143 036400 SCU
000144 037001 CMPB
000145 041005 LOAD
000146 040007 LOAD
000147 051411 STOR
000150 050004 TBA
000151 054004 MTBA
000152 061001 CMPM
000153 071002 ADDM
000154 101003 SUBM
000155 111604 MPYM
000156 120005 INCM
000157 121006 DECM
000160 131707 LDX
000161 140010 BR
000162 142010 BR
000163 141111 BCC
000164 150012 LDB
000165 151013 LDD
000166 160014 STB
000167 161015 STD
000170 171016 LRA
000171 170016 ILLEGAL
000172 001300 ILLEGAL
000173 037400 ILLEGAL
000174 020003 ILLEGAL
ENTRY 1 LOCAL 000000
";

#[test]
fn each_name_is_listed(rt: HostRuntime) -> Result<(), Fail> {
    lists(&rt, rt.alloc(), &[&PAGE_WORDS], &[], PAGE)
}
