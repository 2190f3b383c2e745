//! What a token is to the grammar.
ghost use Rattle.std.specs.Prelude.{◌≡◌};
ghost use Rattle.spl_tree.specs.Symbols.{symbol_of};
ghost use Rattle.spl_tokens.specs.Cursor.{symbol_in};
ghost use Rattle.spl_tokens.specs.Reads.{lexeme};
ghost use Rattle.spl_reading.specs.Readers.{same_symbol};
ghost use Rattle.spl_reading.specs.Readers as readers;

use spl_tree::{Kind, Reserved, Symbol, Token, What, binary};

/// The reserved words with their symbols.
const RESERVED: [(&str, Symbol); 50] = [
    ("AND", Symbol::Operator(binary::AND)),
    ("ARRAY", Symbol::Word(Reserved::Array)),
    ("ASSEMBLE", Symbol::Word(Reserved::Unused)),
    ("BEGIN", Symbol::Word(Reserved::Begin)),
    ("BYTE", Symbol::Type(Kind::Byte)),
    ("CASE", Symbol::Word(Reserved::Case)),
    ("COMMENT", Symbol::Word(Reserved::Unused)),
    ("DEFINE", Symbol::Word(Reserved::Unused)),
    ("DO", Symbol::Word(Reserved::Do)),
    ("DOUBLE", Symbol::Type(Kind::Double)),
    ("ELSE", Symbol::Word(Reserved::Else)),
    ("END", Symbol::Word(Reserved::End)),
    ("ENTRY", Symbol::Word(Reserved::Unused)),
    ("EQUATE", Symbol::Word(Reserved::Equate)),
    ("FALSE", Symbol::Truth(false)),
    ("FOR", Symbol::Word(Reserved::For)),
    ("GLOBAL", Symbol::Word(Reserved::Unused)),
    ("GO", Symbol::Word(Reserved::Go)),
    ("GOTO", Symbol::Word(Reserved::Goto)),
    ("IF", Symbol::Word(Reserved::If)),
    ("INTEGER", Symbol::Type(Kind::Integer)),
    ("INTRINSIC", Symbol::Word(Reserved::Intrinsic)),
    ("LABEL", Symbol::Word(Reserved::Label)),
    ("LAND", Symbol::Operator(binary::LAND)),
    ("LOGICAL", Symbol::Type(Kind::Logical)),
    ("LONG", Symbol::Word(Reserved::Unused)),
    ("LOR", Symbol::Operator(binary::LOR)),
    ("MOD", Symbol::Operator(binary::MOD)),
    ("MOVE", Symbol::Word(Reserved::Move)),
    ("NOT", Symbol::Not),
    ("OF", Symbol::Word(Reserved::Of)),
    ("OPTION", Symbol::Word(Reserved::Options)),
    ("OR", Symbol::Operator(binary::OR)),
    ("OWN", Symbol::Word(Reserved::Own)),
    ("POINTER", Symbol::Word(Reserved::Pointer)),
    ("PROCEDURE", Symbol::Word(Reserved::Procedure)),
    ("REAL", Symbol::Word(Reserved::Unused)),
    ("RETURN", Symbol::Word(Reserved::Return)),
    ("SCAN", Symbol::Word(Reserved::Scan)),
    ("STEP", Symbol::Word(Reserved::Step)),
    ("SUBROUTINE", Symbol::Word(Reserved::Subroutine)),
    ("SWITCH", Symbol::Word(Reserved::Unused)),
    ("THEN", Symbol::Word(Reserved::Then)),
    ("TO", Symbol::Word(Reserved::To)),
    ("TOS", Symbol::Word(Reserved::Unused)),
    ("TRUE", Symbol::Truth(true)),
    ("UNTIL", Symbol::Word(Reserved::Until)),
    ("VALUE", Symbol::Word(Reserved::Value)),
    ("WHILE", Symbol::Word(Reserved::While)),
    ("XOR", Symbol::Operator(binary::XOR)),
];

/// The symbols of the marks, by their numbers.
const MARKS: [Symbol; 20] = [
    Symbol::Open,
    Symbol::Close,
    Symbol::Comma,
    Symbol::Semicolon,
    Symbol::Colon,
    Symbol::Dot,
    Symbol::Operator(binary::EQUAL),
    Symbol::Operator(binary::LESS),
    Symbol::Operator(binary::GREATER),
    Symbol::Operator(binary::PLUS),
    Symbol::Operator(binary::MINUS),
    Symbol::Operator(binary::TIMES),
    Symbol::Operator(binary::OVER),
    Symbol::Ampersand,
    Symbol::AtSign,
    Symbol::Word(Reserved::Unused),
    Symbol::Assign,
    Symbol::Operator(binary::AT_MOST),
    Symbol::Operator(binary::AT_LEAST),
    Symbol::Operator(binary::UNEQUAL),
];

/// The number of a kind.
#[tactic(auto, unfolding(spl_reading::specs::Readers::kind_number))]
fn kind_number(kind: Kind) -> u32
    ensures { result ≡ readers.kind_number kind }
{
    match kind {
        Kind::Integer => 0,
        Kind::Logical => 1,
        Kind::Byte => 2,
        Kind::Double => 3,
    }
}

/// The number of a reserved word.
#[tactic(auto, unfolding(spl_reading::specs::Readers::reserved_number))]
fn word_number(word: Reserved) -> u32
    ensures { result ≡ readers.reserved_number word }
{
    match word {
        Reserved::Array => 0,
        Reserved::Begin => 1,
        Reserved::Case => 2,
        Reserved::Do => 3,
        Reserved::Else => 4,
        Reserved::End => 5,
        Reserved::Equate => 6,
        Reserved::For => 7,
        Reserved::Go => 8,
        Reserved::Goto => 9,
        Reserved::If => 10,
        Reserved::Intrinsic => 11,
        Reserved::Label => 12,
        Reserved::Move => 13,
        Reserved::Of => 14,
        Reserved::Options => 15,
        Reserved::Own => 16,
        Reserved::Pointer => 17,
        Reserved::Procedure => 18,
        Reserved::Return => 19,
        Reserved::Scan => 20,
        Reserved::Step => 21,
        Reserved::Subroutine => 22,
        Reserved::Then => 23,
        Reserved::To => 24,
        Reserved::Until => 25,
        Reserved::Value => 26,
        Reserved::While => 27,
        Reserved::Unused => 28,
    }
}

/// A symbol as two numbers: which symbol it is, and its value.
#[tactic(auto, unfolding(spl_reading::specs::Readers::symbol_number, spl_reading::specs::Readers::truth_number))]
fn symbol_number(symbol: Symbol) -> (u8, u32)
    ensures { result ≡ readers.symbol_number symbol }
{
    match symbol {
        Symbol::Name => (0, 0),
        Symbol::Number(value) => (1, u32::from(value)),
        Symbol::Wide(value) => (2, value),
        Symbol::Text => (3, 0),
        Symbol::Truth(false) => (4, 0),
        Symbol::Truth(true) => (4, 1),
        Symbol::Operator(op) => (5, u32::from(op)),
        Symbol::Not => (6, 0),
        Symbol::Type(kind) => (7, kind_number(kind)),
        Symbol::Open => (8, 0),
        Symbol::Close => (9, 0),
        Symbol::Comma => (10, 0),
        Symbol::Semicolon => (11, 0),
        Symbol::Colon => (12, 0),
        Symbol::Dot => (13, 0),
        Symbol::Ampersand => (14, 0),
        Symbol::AtSign => (15, 0),
        Symbol::Assign => (16, 0),
        Symbol::Word(word) => (17, word_number(word)),
        Symbol::Stop => (18, 0),
    }
}

/// The two symbols are the same.
#[tactic(auto, unfolding(spl_reading::specs::Readers::same_symbol))]
pub fn same(a: Symbol, b: Symbol) -> bool
    ensures { result ≡ same_symbol a b }
{
    let (a_kind, a_value) = symbol_number(a);
    let (b_kind, b_value) = symbol_number(b);
    a_kind == b_kind && a_value == b_value
}

/// The symbol of a word in a table: a name, where it is none of its words.
fn symbol_among(words: &[(&str, Symbol)], letters: &[u8]) -> Symbol
    ensures { result ≡ symbol_in words.now letters.now }
{
    for (word, symbol) in words {
        if letters == word.as_bytes() {
            return *symbol;
        }
    }
    Symbol::Name
}

/// The symbol of what stands at a token.
pub fn symbol(what: &What) -> Symbol
    ensures { result ≡ symbol_of what.now }
{
    match what {
        What::Word(name) => symbol_among(&RESERVED, name.text.as_slice()),
        What::Number(value) => Symbol::Number(*value),
        What::Wide(value) => Symbol::Wide(*value),
        What::Text(_) => Symbol::Text,
        What::Mark(mark) => match MARKS.get(*mark as usize) {
            Some(symbol) => *symbol,
            None => Symbol::Word(Reserved::Unused),
        },
        What::End => Symbol::Stop,
    }
}

/// The symbol of a token.
#[tactic(auto, unfolding(crate::specs::Reads::lexeme))]
pub fn token_symbol(token: &Token) -> Symbol
    ensures { result ≡ (lexeme token.now).symbol }
{
    symbol(&token.what)
}
