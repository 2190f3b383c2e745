//! The numbers of marks, operators, shifts and classes: each list counts from 0, in the order of the language's
//! description.

/// The marks `( ) , ; : . = < > + - * / & @ # := <= >= <>`.
pub mod mark {
    pub const OPEN: u8 = 0;

    pub const CLOSE: u8 = 1;

    pub const COMMA: u8 = 2;

    pub const SEMICOLON: u8 = 3;

    pub const COLON: u8 = 4;

    pub const DOT: u8 = 5;

    pub const EQUAL: u8 = 6;

    pub const LESS: u8 = 7;

    pub const GREATER: u8 = 8;

    pub const PLUS: u8 = 9;

    pub const MINUS: u8 = 10;

    pub const STAR: u8 = 11;

    pub const SLASH: u8 = 12;

    pub const AMPERSAND: u8 = 13;

    pub const AT: u8 = 14;

    pub const HASH: u8 = 15;

    pub const ASSIGN: u8 = 16;

    pub const AT_MOST: u8 = 17;

    pub const AT_LEAST: u8 = 18;

    pub const UNEQUAL: u8 = 19;
}

/// The signs of one operand: `+` and `-` before a sum, and NOT.
pub mod unary {
    pub const PLUS: u8 = 0;

    pub const MINUS: u8 = 1;

    pub const NOT: u8 = 2;
}

/// The operators of two operands, from those that bind least: OR, AND, LOR, XOR, LAND, the six relations, `+ - * /`, MOD.
pub mod binary {
    pub const OR: u8 = 0;

    pub const AND: u8 = 1;

    pub const LOR: u8 = 2;

    pub const XOR: u8 = 3;

    pub const LAND: u8 = 4;

    pub const EQUAL: u8 = 5;

    pub const UNEQUAL: u8 = 6;

    pub const LESS: u8 = 7;

    pub const GREATER: u8 = 8;

    pub const AT_MOST: u8 = 9;

    pub const AT_LEAST: u8 = 10;

    pub const PLUS: u8 = 11;

    pub const MINUS: u8 = 12;

    pub const TIMES: u8 = 13;

    pub const OVER: u8 = 14;

    pub const MOD: u8 = 15;
}

/// The relations `= <> < > <= >=`, as of a comparison of bytes and of a test of the condition code. As an operator of two
/// operands each has 5 more.
pub mod relation {
    pub const EQUAL: u8 = 0;

    pub const UNEQUAL: u8 = 1;

    pub const LESS: u8 = 2;

    pub const GREATER: u8 = 3;

    pub const AT_MOST: u8 = 4;

    pub const AT_LEAST: u8 = 5;
}

/// The shifts ASL, ASR, LSL, LSR, CSL, CSR.
pub mod shift {
    pub const ASL: u8 = 0;

    pub const ASR: u8 = 1;

    pub const LSL: u8 = 2;

    pub const LSR: u8 = 3;

    pub const CSL: u8 = 4;

    pub const CSR: u8 = 5;
}

/// The classes of characters of MOVE WHILE: letters (A), digits (N), both (AN), and with S small letters as capitals.
pub mod class {
    pub const A: u8 = 0;

    pub const N: u8 = 1;

    pub const AN: u8 = 2;

    pub const AS: u8 = 3;

    pub const ANS: u8 = 4;
}
