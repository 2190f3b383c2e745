//! The reserved words of the language.
ghost use Rattle.std.specs.Prelude.{◌≡◌, nat_eq};
ghost use Rattle.std.specs.List.{list_any};
ghost use lib.Pointwise.{pointwise};
ghost use Rattle.spl_cuts.specs.Defines as df;

use spl_tree::Name;

/// No DEFINE has one of these names.
pub const RESERVED: [&str; 50] = [
    "AND",
    "ARRAY",
    "ASSEMBLE",
    "BEGIN",
    "BYTE",
    "CASE",
    "COMMENT",
    "DEFINE",
    "DO",
    "DOUBLE",
    "ELSE",
    "END",
    "ENTRY",
    "EQUATE",
    "FALSE",
    "FOR",
    "GLOBAL",
    "GO",
    "GOTO",
    "IF",
    "INTEGER",
    "INTRINSIC",
    "LABEL",
    "LAND",
    "LOGICAL",
    "LONG",
    "LOR",
    "MOD",
    "MOVE",
    "NOT",
    "OF",
    "OPTION",
    "OR",
    "OWN",
    "POINTER",
    "PROCEDURE",
    "REAL",
    "RETURN",
    "SCAN",
    "STEP",
    "SUBROUTINE",
    "SWITCH",
    "THEN",
    "TO",
    "TOS",
    "TRUE",
    "UNTIL",
    "VALUE",
    "WHILE",
    "XOR",
];

/// The name is one of these words.
fn is_among(name: &[u8], words: &[&str]) -> bool
    ensures { result ≡ list_any (λ w. pointwise nat_eq name.now w.now) words.now }
{
    words.iter().any(|word| name == word.as_bytes())
}

/// The name is a reserved word.
pub fn is_reserved(name: &Name) -> bool
    ensures { result ≡ df.is_reserved name.now.text.items }
{
    is_among(name.text.as_slice(), &RESERVED)
}
