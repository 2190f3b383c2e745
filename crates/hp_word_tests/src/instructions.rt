//! Words of the manual's page, each operation once, and all words decoded and encoded again.
use hp_instr::{
    Group, Instr, Label, Mode, Op, control, decode, encode, group_of, has_word, immediate,
    is_label, is_op, label_word, major, read_label, shift, short,
};
use std::alloc::{AllocError, Global};
use std::test::Fail;

/// Words and the names of their operations: each operation once, and at the end what is no instruction.
static PAGE: [(u16, &str); 117] = [
    (0o000001, "NOP,DELB"),
    (0o000204, "DDEL,INCX"),
    (0o000276, "DDEL,XBX"),
    (0o000321, "ZROX,SUB"),
    (0o000520, "DECX,ADD"),
    (0o000611, "ZERO,DADD"),
    (0o000743, "DZRO,STAX"),
    (0o001023, "DCMP,DIV"),
    (0o001222, "DSUB,MPY"),
    (0o001542, "DNEG,LDXB"),
    (0o001617, "DXCH,CMP"),
    (0o002445, "NEG,DUP"),
    (0o002532, "TEST,XCH"),
    (0o002634, "STBX,DECA"),
    (0o002731, "DTST,BTST"),
    (0o003336, "INCA,ADAX"),
    (0o003537, "XAX,ADXA"),
    (0o004056, "DEL,CAB"),
    (0o004164, "ZROB,LDIV"),
    (0o004661, "DDUP,LADD"),
    (0o006062, "LCMP,LSUB"),
    (0o006365, "LMPY,NOT"),
    (0o006667, "OR,XOR"),
    (0o007444, "INCB,LDXA"),
    (0o007570, "DECB,AND"),
    (0o010001, "ASL"),
    (0o010102, "ASR"),
    (0o010200, "LSL"),
    (0o010300, "LSR"),
    (0o010401, "CSL"),
    (0o010500, "CSR"),
    (0o011001, "IABZ"),
    (0o011103, "DABZ"),
    (0o011201, "IXBZ"),
    (0o011301, "DXBZ"),
    (0o011400, "CPRB"),
    (0o011500, "BRO"),
    (0o011602, "BRE"),
    (0o011702, "BCY"),
    (0o012001, "BNCY"),
    (0o012100, "BOV"),
    (0o012202, "BNOV"),
    (0o020001, "SPLT"),
    (0o020002, "JOIN"),
    (0o020407, "LDI"),
    (0o021000, "LDXI"),
    (0o021401, "CMPI"),
    (0o022002, "ADDI"),
    (0o022401, "SUBI"),
    (0o023002, "MPYI"),
    (0o023400, "DIVI"),
    (0o024001, "LDNI"),
    (0o024405, "LDXN"),
    (0o025001, "CMPN"),
    (0o025405, "EXF"),
    (0o026000, "DPF"),
    (0o026402, "ANDI"),
    (0o027003, "ORI"),
    (0o027401, "XORI"),
    (0o030000, "PCAL"),
    (0o030400, "EXIT"),
    (0o031000, "SXIT"),
    (0o031400, "SCAL"),
    (0o032001, "ADXI"),
    (0o032402, "SBXI"),
    (0o033000, "ROOM"),
    (0o033400, "ADDS"),
    (0o034001, "SUBS"),
    (0o034400, "MOVE"),
    (0o035000, "MVB"),
    (0o035401, "MVBW"),
    (0o036000, "SCW"),
    (0o036400, "SCU"),
    (0o037000, "CMPB"),
    (0o040024, "LOAD"),
    (0o050004, "TBA"),
    (0o051006, "STOR"),
    (0o054002, "MTBA"),
    (0o061001, "CMPM"),
    (0o071003, "ADDM"),
    (0o101005, "SUBM"),
    (0o111000, "MPYM"),
    (0o120004, "INCM"),
    (0o121000, "DECM"),
    (0o131012, "LDX"),
    (0o140016, "BR"),
    (0o141001, "BCC"),
    (0o150003, "LDB"),
    (0o151000, "LDD"),
    (0o160002, "STB"),
    (0o161011, "STD"),
    (0o171006, "LRA"),
    (0o047700, "LOAD"),
    (0o041603, "LOAD"),
    (0o040403, "LOAD"),
    (0o142402, "BR"),
    (0o000013, "ILLEGAL"),
    (0o001300, "ILLEGAL"),
    (0o014000, "ILLEGAL"),
    (0o010600, "ILLEGAL"),
    (0o012300, "ILLEGAL"),
    (0o020000, "ILLEGAL"),
    (0o020003, "ILLEGAL"),
    (0o025420, "ILLEGAL"),
    (0o026362, "ILLEGAL"),
    (0o035004, "ILLEGAL"),
    (0o034402, "ILLEGAL"),
    (0o035404, "ILLEGAL"),
    (0o036001, "ILLEGAL"),
    (0o037400, "ILLEGAL"),
    (0o060000, "ILLEGAL"),
    (0o044000, "ILLEGAL"),
    (0o052000, "ILLEGAL"),
    (0o144000, "ILLEGAL"),
    (0o145000, "ILLEGAL"),
    (0o130000, "ILLEGAL"),
    (0o170000, "ILLEGAL"),
];

/// Whether a word is listed under that name.
fn is_named(alloc: Global, &(word, name): &(u16, &str)) -> Result<bool, AllocError> {
    let listed = format!(in alloc; "{}", decode(word))?;
    Ok(listed.as_str() == name)
}

#[test]
fn words_have_their_names(rt: HostRuntime) -> Result<(), Fail> {
    for row in &PAGE {
        let (word, name) = row;
        assert!(rt; is_named(rt.alloc(), row)?, "{name} at {word:06o}");
    }
    Ok(())
}

/// Words and the instructions that they are.
static INSTRUCTIONS: [(u16, Instr); 11] = [
    (
        0o004520,
        Instr::Pair {
            left: Op::DUP,
            right: Op::ADD,
        },
    ),
    (
        0o010517,
        Instr::Shifted {
            kind: shift::CSR,
            count: 15,
        },
    ),
    (
        0o011677,
        Instr::Short {
            test: short::BRE,
            back: true,
            d: 31,
        },
    ),
    (
        0o025504,
        Instr::Immediate {
            which: immediate::EXF,
            n: 0o104,
        },
    ),
    (
        0o030403,
        Instr::Control {
            which: control::EXIT,
            n: 3,
        },
    ),
    (
        0o167777,
        Instr::Memory {
            major: major::STB,
            second: true,
            x: true,
            i: true,
            mode: Mode::SMinus(63),
        },
    ),
    (0o040403, Instr::LoadCode { back: true, d: 3 }),
    (
        0o142005,
        Instr::Branch {
            i: true,
            back: false,
            d: 5,
        },
    ),
    (
        0o141244,
        Instr::OnCode {
            mask: 2,
            back: true,
            d: 4,
        },
    ),
    (
        0o054402,
        Instr::Loop {
            modify: true,
            back: true,
            d: 2,
        },
    ),
    (0o170000, Instr::Illegal(0o170000)),
];

/// Whether a word is that instruction, and the instruction that word.
fn is_word_of(&(word, i): &(u16, Instr)) -> bool {
    decode(word) == i && has_word(i) && encode(i) == word
}

#[test]
fn instructions_have_their_words(rt: HostRuntime) {
    for row in &INSTRUCTIONS {
        let (word, _) = row;
        assert!(rt; is_word_of(row), "at {word:06o}");
    }
}

/// Instructions with a field that no word has.
static WORDLESS: [Instr; 12] = [
    Instr::Pair {
        left: Op::NOP,
        right: Op { code: 0o13 },
    },
    Instr::Pair {
        left: Op { code: 0o100 },
        right: Op::NOP,
    },
    Instr::Shifted { kind: 6, count: 0 },
    Instr::Shifted {
        kind: shift::ASL,
        count: 64,
    },
    Instr::Short {
        test: short::BNOV,
        back: false,
        d: 32,
    },
    Instr::Immediate {
        which: immediate::WINDOW,
        n: 0,
    },
    Instr::Immediate {
        which: immediate::DPF,
        n: 0o362,
    },
    Instr::Control {
        which: control::MVBW,
        n: 4,
    },
    Instr::Memory {
        major: major::LOAD,
        second: false,
        x: false,
        i: false,
        mode: Mode::DbPlus(0),
    },
    Instr::Memory {
        major: major::LOAD,
        second: true,
        x: false,
        i: false,
        mode: Mode::QMinus(64),
    },
    Instr::OnCode {
        mask: 8,
        back: false,
        d: 0,
    },
    Instr::Illegal(0o004520),
];

#[test]
fn fields_that_no_word_has_are_told(rt: HostRuntime) {
    for i in &WORDLESS {
        assert!(rt; !has_word(*i), "{i:?}");
    }
    assert!(rt; is_op(Op::XBX) && !is_op(Op { code: 0o77 }));
}

/// Words and the groups of their instructions.
static GROUPS: [(u16, Group); 10] = [
    (0o004520, Group::Stack),
    (0o010517, Group::Field),
    (0o011677, Group::Reference),
    (0o020001, Group::Field),
    (0o031401, Group::Call),
    (0o032001, Group::Field),
    (0o034003, Group::Field),
    (0o034401, Group::Move),
    (0o141244, Group::Reference),
    (0o170000, Group::Illegal),
];

#[test]
fn instructions_are_of_their_groups(rt: HostRuntime) {
    for (word, group) in &GROUPS {
        assert!(rt; group_of(decode(*word)) == *group, "at {word:06o}");
    }
}

/// Words and the labels that they are.
static LABELS: [(u16, Label); 7] = [
    (0, Label::Local(0)),
    (0o037777, Label::Local(16383)),
    (0o040000, Label::Bad(0o040000)),
    (0o077777, Label::Bad(0o077777)),
    (0x8502, Label::External { seg: 2, entry: 5 }),
    (0x87FF, Label::External { seg: 255, entry: 7 }),
    (
        0xFFFF,
        Label::External {
            seg: 255,
            entry: 127,
        },
    ),
];

/// Labels with a field that no word has.
static NO_LABELS: [Label; 3] = [
    Label::Local(16384),
    Label::External { seg: 0, entry: 128 },
    Label::Bad(0),
];

/// Whether a word is that label, and the label that word.
fn is_word_of_label(&(word, label): &(u16, Label)) -> bool {
    read_label(word) == label && is_label(label) && label_word(label) == word
}

#[test]
fn labels_have_their_words(rt: HostRuntime) {
    for row in &LABELS {
        let (word, _) = row;
        assert!(rt; is_word_of_label(row), "at {word:06o}");
    }
    for label in &NO_LABELS {
        assert!(rt; !is_label(*label), "{label:?}");
    }
}

/// Whether a word is what its instruction and its label are encoded as.
fn is_encoded_again(word: u16) -> bool {
    encode(decode(word)) == word && label_word(read_label(word)) == word
}

#[test]
fn each_word_is_decoded_and_encoded_again(rt: HostRuntime) {
    let mut illegal = 0u32;
    for number in 0..65536u32 {
        let word = number as u16;
        assert!(rt; is_encoded_again(word), "{word:06o}");
        if matches!(decode(word), Instr::Illegal(_)) {
            illegal = illegal.wrapping_add(1);
        }
    }
    // The words of an independent reading of the page that are no instruction.
    assert!(rt; illegal == 24_384, "{illegal}");
}
