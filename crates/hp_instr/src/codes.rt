//! The codes of operations and instructions, by the manual's names. A, B and C are the top words, A the highest.

use crate::instruction::Op;

impl Op {
    /// Nothing.
    pub const NOP: Op = Op { code: 0o00 };
    /// Deletes B.
    pub const DELB: Op = Op { code: 0o01 };
    /// Deletes B and A.
    pub const DDEL: Op = Op { code: 0o02 };
    /// X becomes 0.
    pub const ZROX: Op = Op { code: 0o03 };
    /// X plus 1.
    pub const INCX: Op = Op { code: 0o04 };
    /// X minus 1.
    pub const DECX: Op = Op { code: 0o05 };
    /// Pushes a zero.
    pub const ZERO: Op = Op { code: 0o06 };
    /// Pushes two zeros.
    pub const DZRO: Op = Op { code: 0o07 };
    /// Compares two doubles.
    pub const DCMP: Op = Op { code: 0o10 };
    /// Adds two doubles.
    pub const DADD: Op = Op { code: 0o11 };
    /// Subtracts two doubles.
    pub const DSUB: Op = Op { code: 0o12 };
    /// Negates a double.
    pub const DNEG: Op = Op { code: 0o15 };
    /// Exchanges two doubles.
    pub const DXCH: Op = Op { code: 0o16 };
    /// Compares B and A, signed.
    pub const CMP: Op = Op { code: 0o17 };
    /// B plus A.
    pub const ADD: Op = Op { code: 0o20 };
    /// B minus A.
    pub const SUB: Op = Op { code: 0o21 };
    /// B times A.
    pub const MPY: Op = Op { code: 0o22 };
    /// B divided by A: quotient and remainder.
    pub const DIV: Op = Op { code: 0o23 };
    /// Minus A.
    pub const NEG: Op = Op { code: 0o24 };
    /// The condition code of A.
    pub const TEST: Op = Op { code: 0o25 };
    /// X becomes B.
    pub const STBX: Op = Op { code: 0o26 };
    /// The condition code of a double.
    pub const DTST: Op = Op { code: 0o27 };
    /// The condition code of A's right byte as a character.
    pub const BTST: Op = Op { code: 0o31 };
    /// Exchanges B and A.
    pub const XCH: Op = Op { code: 0o32 };
    /// A plus 1.
    pub const INCA: Op = Op { code: 0o33 };
    /// A minus 1.
    pub const DECA: Op = Op { code: 0o34 };
    /// Exchanges X and A.
    pub const XAX: Op = Op { code: 0o35 };
    /// X becomes X plus A.
    pub const ADAX: Op = Op { code: 0o36 };
    /// A becomes A plus X.
    pub const ADXA: Op = Op { code: 0o37 };
    /// Deletes A.
    pub const DEL: Op = Op { code: 0o40 };
    /// B becomes 0.
    pub const ZROB: Op = Op { code: 0o41 };
    /// B becomes X.
    pub const LDXB: Op = Op { code: 0o42 };
    /// X becomes A, which is deleted.
    pub const STAX: Op = Op { code: 0o43 };
    /// Pushes X.
    pub const LDXA: Op = Op { code: 0o44 };
    /// Copies A.
    pub const DUP: Op = Op { code: 0o45 };
    /// Copies a double.
    pub const DDUP: Op = Op { code: 0o46 };
    /// C, B, A become B, A, C.
    pub const CAB: Op = Op { code: 0o56 };
    /// Compares B and A, unsigned.
    pub const LCMP: Op = Op { code: 0o60 };
    /// B plus A, unsigned.
    pub const LADD: Op = Op { code: 0o61 };
    /// B minus A, unsigned.
    pub const LSUB: Op = Op { code: 0o62 };
    /// The unsigned product of B and A, a double.
    pub const LMPY: Op = Op { code: 0o63 };
    /// The unsigned double in C and B divided by A.
    pub const LDIV: Op = Op { code: 0o64 };
    /// The bits of A inverted.
    pub const NOT: Op = Op { code: 0o65 };
    /// B or A.
    pub const OR: Op = Op { code: 0o66 };
    /// B exclusive or A.
    pub const XOR: Op = Op { code: 0o67 };
    /// B and A.
    pub const AND: Op = Op { code: 0o70 };
    /// B plus 1.
    pub const INCB: Op = Op { code: 0o74 };
    /// B minus 1.
    pub const DECB: Op = Op { code: 0o75 };
    /// Exchanges X and B.
    pub const XBX: Op = Op { code: 0o76 };
}

/// The kinds of a shift.
pub mod shift {
    /// Left, the sign staying.
    pub const ASL: u8 = 0o00;
    /// Right, the sign copied.
    pub const ASR: u8 = 0o01;
    /// Left.
    pub const LSL: u8 = 0o02;
    /// Right.
    pub const LSR: u8 = 0o03;
    /// Rotated left.
    pub const CSL: u8 = 0o04;
    /// Rotated right.
    pub const CSR: u8 = 0o05;
}

/// The tests of a short branch.
pub mod short {
    /// A plus 1; where it is 0.
    pub const IABZ: u8 = 0o10;
    /// A minus 1; where it is 0.
    pub const DABZ: u8 = 0o11;
    /// X plus 1; where it is 0.
    pub const IXBZ: u8 = 0o12;
    /// X minus 1; where it is 0.
    pub const DXBZ: u8 = 0o13;
    /// Where X lies between B and A.
    pub const CPRB: u8 = 0o14;
    /// Where A is odd.
    pub const BRO: u8 = 0o15;
    /// Where A is even.
    pub const BRE: u8 = 0o16;
    /// On carry.
    pub const BCY: u8 = 0o17;
    /// On no carry.
    pub const BNCY: u8 = 0o20;
    /// On overflow.
    pub const BOV: u8 = 0o21;
    /// On no overflow.
    pub const BNOV: u8 = 0o22;
}

/// The codes of major 2; n is the immediate number.
pub mod immediate {
    /// SPLT with the number 1, JOIN with 2.
    pub const WINDOW: u8 = 0;
    /// Pushes n.
    pub const LDI: u8 = 1;
    /// X becomes n.
    pub const LDXI: u8 = 2;
    /// Compares A with n.
    pub const CMPI: u8 = 3;
    /// A plus n.
    pub const ADDI: u8 = 4;
    /// A minus n.
    pub const SUBI: u8 = 5;
    /// A times n.
    pub const MPYI: u8 = 6;
    /// A divided by n.
    pub const DIVI: u8 = 7;
    /// Pushes minus n.
    pub const LDNI: u8 = 8;
    /// X becomes minus n.
    pub const LDXN: u8 = 9;
    /// Compares A with minus n.
    pub const CMPN: u8 = 10;
    /// A field of A.
    pub const EXF: u8 = 11;
    /// A field of B replaced by A.
    pub const DPF: u8 = 12;
    /// A and n.
    pub const ANDI: u8 = 13;
    /// A or n.
    pub const ORI: u8 = 14;
    /// A exclusive or n.
    pub const XORI: u8 = 15;
}

/// The codes of major 3; n is the number.
pub mod control {
    /// Calls entry n.
    pub const PCAL: u8 = 0;
    /// Leaves a procedure, n words deleted.
    pub const EXIT: u8 = 1;
    /// Leaves a subroutine, n words deleted.
    pub const SXIT: u8 = 2;
    /// Calls the subroutine of entry n.
    pub const SCAL: u8 = 3;
    /// X plus n.
    pub const ADXI: u8 = 4;
    /// X minus n.
    pub const SBXI: u8 = 5;
    /// Tests for room for n words, or for A of them.
    pub const ROOM: u8 = 6;
    /// Pushes n zeros.
    pub const ADDS: u8 = 7;
    /// Deletes n words.
    pub const SUBS: u8 = 8;
    /// Moves words.
    pub const MOVE: u8 = 9;
    /// Moves bytes.
    pub const MVB: u8 = 10;
    /// Moves bytes while they are of a class.
    pub const MVBW: u8 = 11;
    /// Scans while a byte is met.
    pub const SCW: u8 = 12;
    /// Scans until a byte is met.
    pub const SCU: u8 = 13;
    /// Compares bytes.
    pub const CMPB: u8 = 14;
}

/// The majors of operations on a word in memory.
pub mod major {
    /// Pushes the word.
    pub const LOAD: u8 = 4;
    /// Stores A into the word.
    pub const STOR: u8 = 5;
    /// Compares A with the word.
    pub const CMPM: u8 = 6;
    /// A plus the word.
    pub const ADDM: u8 = 7;
    /// A minus the word.
    pub const SUBM: u8 = 8;
    /// A times the word.
    pub const MPYM: u8 = 9;
    /// The word plus 1; with bit 6 one DECM, minus 1.
    pub const INCM: u8 = 10;
    /// X becomes the word.
    pub const LDX: u8 = 11;
    /// Pushes the byte; with bit 6 one LDD, the double.
    pub const LDB: u8 = 13;
    /// Stores the byte; with bit 6 one STD, the double.
    pub const STB: u8 = 14;
    /// Pushes the address.
    pub const LRA: u8 = 15;
}
