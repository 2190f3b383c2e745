//! Instructions as they stand in words. Bit 0 of a word is the most significant, and codes are octal where marked `%`.

/// An operation on the words at the top of the stack, half of a word of major 0.
#[derive(Clone, Copy, Debug, PartialEq, Eq)]
pub struct Op {
    /// The operation's code, %00 to %76. The codes that are listed are operations, and the others are illegal.
    pub code: u8,
}

/// Where a data operand stands: a displacement, in words, from a register.
#[derive(Clone, Copy, Debug, PartialEq, Eq)]
pub enum Mode {
    /// The DB-relative address, 0 to 255.
    DbPlus(u8),
    /// Above Q, 0 to 127.
    QPlus(u8),
    /// Below Q, 0 to 63.
    QMinus(u8),
    /// Below S, the address of the top word, 0 to 63.
    SMinus(u8),
}

/// An instruction, or a pair of stack operations.
///
/// A displacement `d` of a branch is in words, from the word's own place; where `back` is set it is subtracted.
#[derive(Clone, Copy, Debug, PartialEq, Eq)]
pub enum Instr {
    /// Major 0: two stack operations, of which the left is done first.
    Pair {
        left: Op,
        right: Op,
    },
    /// Major 1, a shift of the top word. `kind` is its code, 0 to 5: ASL, ASR, LSL, LSR, CSL, CSR. `count` is the
    /// number of places, 0 to 63.
    Shifted {
        kind: u8,
        count: u8,
    },
    /// Major 1, a short branch. `test` is its code: %10 IABZ, %11 DABZ, %12 IXBZ, %13 DXBZ, %14 CPRB, %15 BRO, %16 BRE,
    /// %17 BCY, %20 BNCY, %21 BOV, %22 BNOV. `d` is 0 to 31.
    Short {
        test: u8,
        back: bool,
        d: u8,
    },
    /// Major 2. `which` is its code: 0 SPLT (`n` is 1) and JOIN (`n` is 2), 1 LDI, 2 LDXI, 3 CMPI, 4 ADDI, 5 SUBI,
    /// 6 MPYI, 7 DIVI, 8 LDNI, 9 LDXN, 10 CMPN, 11 EXF, 12 DPF, 13 ANDI, 14 ORI, 15 XORI. `n` is the immediate number;
    /// of EXF and DPF its left four bits are the field's first bit, and its right four the field's length, 0 meaning
    /// sixteen, where the field ends within the word.
    Immediate {
        which: u8,
        n: u8,
    },
    /// Major 3. `which` is its code: 0 PCAL, 1 EXIT, 2 SXIT, 3 SCAL, 4 ADXI, 5 SBXI, 6 ROOM, 7 ADDS, 8 SUBS, 9 MOVE,
    /// 10 MVB, 11 MVBW, 12 SCW, 13 SCU, 14 CMPB. `n` is an entry, a number of words, or for the moves a choice: of MOVE,
    /// MVB and CMPB 0 for a source in the data and 1 for one in the code, of MVBW 1 N, 2 A, 3 AN, 6 AS, 7 ANS, of SCW and
    /// SCU 0.
    Control {
        which: u8,
        n: u8,
    },
    /// Majors 4 to 15 with an operand in memory. `major` is bits 0 to 3 and `second` bit 6: 4 LOAD, 5 STOR, 6 CMPM,
    /// 7 ADDM, 8 SUBM, 9 MPYM, 11 LDX, 15 LRA (all with `second` set); 10 INCM and with `second` DECM; 13 LDB and with
    /// `second` LDD; 14 STB and with `second` STD. `x` is bit 4, indexing, and `i` bit 5, indirection.
    Memory {
        major: u8,
        second: bool,
        x: bool,
        i: bool,
        mode: Mode,
    },
    /// Major 4: LOAD of the code word at this displacement, 0 to 255.
    LoadCode {
        back: bool,
        d: u8,
    },
    /// Major 12: BR by a displacement of 0 to 255. Where `i` is set, the code word there is added to its own offset.
    Branch {
        i: bool,
        back: bool,
        d: u8,
    },
    /// Major 12: BCC. `mask` has 4 for CCG, 2 for CCE and 1 for CCL. `d` is 0 to 31.
    OnCode {
        mask: u8,
        back: bool,
        d: u8,
    },
    /// Major 5: TBA, and where `modify` is set MTBA. `d` is 0 to 255.
    Loop {
        modify: bool,
        back: bool,
        d: u8,
    },
    /// A word that is no instruction.
    Illegal(u16),
}
