//! The names of operations and instructions in a listing.
ghost use Rattle.std.specs.Prelude.{◌≡◌, ◌==◌, Some, if◌then◌else◌, false};
ghost use Rattle.hp_instr.specs.Names.{op_name, listed_name, name_in, is_pair};
ghost use Rattle.hp_instr.specs.Tables.{shifts, short_branches, window_operations, immediates, controls, first_references, second_references};

use crate::instruction::{Instr, Op};
use std::fmt;

impl fmt::Display for Op {
    ghost output = { λ op. Some (op_name op.code) };

    fn fmt<W: fmt::Write>(&self, f: &mut fmt::Formatter<W>) -> fmt::Result {
        f.write_str(name_of(*self))
    }
}

impl fmt::Display for Instr {
    ghost output = { λ i. Some (listed_name i) };

    #[tactic(auto, unfolding(crate::specs::Names::listed_name))]
    fn fmt<W: fmt::Write>(&self, f: &mut fmt::Formatter<W>) -> fmt::Result {
        match *self {
            Instr::Pair { left, right } => write!(f, "{left},{right}"),
            other => f.write_str(single_name(other)),
        }
    }
}

/// The name of an instruction other than a pair.
#[tactic(auto, unfolding(crate::specs::Names::listed_name))]
fn single_name(i: Instr) -> &'static str
    requires { is_pair i ≡ false }
    ensures { result.now ≡ listed_name i }
{
    match i {
        Instr::Pair { .. } => unreachable!(),
        Instr::Shifted { kind, count: _ } => shift_name(kind),
        Instr::Short { test, .. } => branch_name(test),
        Instr::Immediate { which, n } => immediate_name(which, n),
        Instr::Control { which, n: _ } => control_name(which),
        Instr::Memory { major, second, .. } => reference_name(major, second),
        Instr::LoadCode { .. } => "LOAD",
        Instr::Branch { .. } => "BR",
        Instr::OnCode { .. } => "BCC",
        Instr::Loop { modify, .. } => if modify { "MTBA" } else { "TBA" },
        Instr::Illegal(_) => "ILLEGAL",
    }
}

/// The name of a stack operation, or `ILLEGAL` for a code that is not listed.
#[tactic(auto, unfolding(crate::specs::Names::op_name))]
pub fn name_of(op: Op) -> &'static str
    ensures { result.now ≡ op_name op.code }
{
    match op.code {
        0o00 => "NOP",
        0o01 => "DELB",
        0o02 => "DDEL",
        0o03 => "ZROX",
        0o04 => "INCX",
        0o05 => "DECX",
        0o06 => "ZERO",
        0o07 => "DZRO",
        0o10 => "DCMP",
        0o11 => "DADD",
        0o12 => "DSUB",
        0o15 => "DNEG",
        0o16 => "DXCH",
        0o17 => "CMP",
        0o20 => "ADD",
        0o21 => "SUB",
        0o22 => "MPY",
        0o23 => "DIV",
        0o24 => "NEG",
        0o25 => "TEST",
        0o26 => "STBX",
        0o27 => "DTST",
        0o31 => "BTST",
        0o32 => "XCH",
        0o33 => "INCA",
        0o34 => "DECA",
        0o35 => "XAX",
        0o36 => "ADAX",
        0o37 => "ADXA",
        0o40 => "DEL",
        0o41 => "ZROB",
        0o42 => "LDXB",
        0o43 => "STAX",
        0o44 => "LDXA",
        0o45 => "DUP",
        0o46 => "DDUP",
        0o56 => "CAB",
        0o60 => "LCMP",
        0o61 => "LADD",
        0o62 => "LSUB",
        0o63 => "LMPY",
        0o64 => "LDIV",
        0o65 => "NOT",
        0o66 => "OR",
        0o67 => "XOR",
        0o70 => "AND",
        0o74 => "INCB",
        0o75 => "DECB",
        0o76 => "XBX",
        _ => "ILLEGAL",
    }
}

/// The name of a shift.
fn shift_name(kind: u8) -> &'static str
    ensures { result.now ≡ name_in shifts kind }
{
    match kind {
        0o00 => "ASL",
        0o01 => "ASR",
        0o02 => "LSL",
        0o03 => "LSR",
        0o04 => "CSL",
        0o05 => "CSR",
        _ => "ILLEGAL",
    }
}

/// The name of a short branch.
fn branch_name(test: u8) -> &'static str
    ensures { result.now ≡ name_in short_branches test }
{
    match test {
        0o10 => "IABZ",
        0o11 => "DABZ",
        0o12 => "IXBZ",
        0o13 => "DXBZ",
        0o14 => "CPRB",
        0o15 => "BRO",
        0o16 => "BRE",
        0o17 => "BCY",
        0o20 => "BNCY",
        0o21 => "BOV",
        0o22 => "BNOV",
        _ => "ILLEGAL",
    }
}

/// The name of an instruction of major 2.
fn immediate_name(which: u8, n: u8) -> &'static str
    ensures { result.now ≡ (if which == 0 then name_in window_operations n else name_in immediates which) }
{
    match which {
        0 if n == 1 => "SPLT",
        0 if n == 2 => "JOIN",
        1 => "LDI",
        2 => "LDXI",
        3 => "CMPI",
        4 => "ADDI",
        5 => "SUBI",
        6 => "MPYI",
        7 => "DIVI",
        8 => "LDNI",
        9 => "LDXN",
        10 => "CMPN",
        11 => "EXF",
        12 => "DPF",
        13 => "ANDI",
        14 => "ORI",
        15 => "XORI",
        _ => "ILLEGAL",
    }
}

/// The name of an instruction of major 3.
fn control_name(which: u8) -> &'static str
    ensures { result.now ≡ name_in controls which }
{
    match which {
        0 => "PCAL",
        1 => "EXIT",
        2 => "SXIT",
        3 => "SCAL",
        4 => "ADXI",
        5 => "SBXI",
        6 => "ROOM",
        7 => "ADDS",
        8 => "SUBS",
        9 => "MOVE",
        10 => "MVB",
        11 => "MVBW",
        12 => "SCW",
        13 => "SCU",
        14 => "CMPB",
        _ => "ILLEGAL",
    }
}

/// The name of an operation on a word in memory.
fn reference_name(major: u8, second: bool) -> &'static str
    ensures { result.now ≡ name_in (if second then second_references else first_references) major }
{
    match (major, second) {
        (4, true) => "LOAD",
        (5, true) => "STOR",
        (6, true) => "CMPM",
        (7, true) => "ADDM",
        (8, true) => "SUBM",
        (9, true) => "MPYM",
        (10, false) => "INCM",
        (10, true) => "DECM",
        (11, true) => "LDX",
        (13, false) => "LDB",
        (13, true) => "LDD",
        (14, false) => "STB",
        (14, true) => "STD",
        (15, true) => "LRA",
        _ => "ILLEGAL",
    }
}
