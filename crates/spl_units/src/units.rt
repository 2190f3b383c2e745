//! Bodies and units.
ghost use Rattle.std.specs.Prelude.{◌≡◌, ◌<◌, false, true, IfOk};
ghost use Rattle.spl_tree.specs.Views as view;
ghost use Rattle.spl_reading.specs.ReadStatements as stat;
ghost use Rattle.spl_reading.specs.ReadDeclarations as spec;
ghost use Rattle.spl_reading.specs.ReadDeclarations.{bodies};
ghost use Rattle.spl_tokens.specs.Reads.{Reads, shown};
ghost use Rattle.spl_listed.specs.Lists as lists;
ghost use Rattle.spl_units.specs.UnitParts as parts;

use spl_declarations::Declarations;
use spl_listed::{all_in_segment, can_be_body};
use spl_statements::{statement, statement_list};
use spl_tokens::{Fault, Tokens, same};
use spl_tree::{At, Decl, Reserved, Stmt, Symbol, Token};
use std::alloc::{AllocError, Global};

/// The parts of a unit that its tokens spell.
#[derive(Debug, Drop)]
pub struct UnitParts {
    pub items: Vec<Decl>,
    pub statements: Vec<Stmt>,
    pub segment: u16,
    pub at: At,
}

/// No body: in a procedure none is declared.
#[tactic(auto, unfolding(spl_reading::specs::Readers::refuse))]
fn no_body(
    alloc: Global,
    tokens: &mut Tokens<'_>,
    room: u8,
    segment: u16,
) -> Result<(Vec<Decl>, Vec<Stmt>), Fault>
    ensures { Reads lists.body (bodies room false segment tokens.old) result tokens.new }
{
    let _unused = (alloc, room, segment);
    Err(Fault::Syntax)
}

/// The statement of a subroutine.
fn subroutine_statement(alloc: Global, tokens: &mut Tokens<'_>, room: u8) -> Result<Stmt, Fault>
    ensures { Reads view.statement (stat.statement room tokens.old) result tokens.new }
{
    statement(alloc, tokens, room)
}

/// Statements with the END behind them.
#[tactic(auto, using(spl_tokens::proofs::Steps::steps), unfolding(spl_reading::specs::Readers::pure, spl_reading::specs::Readers::refuse, spl_reading::specs::Readers::followed, spl_reading::specs::Readers::and_then, crate::specs::UnitParts::ended))]
fn ended(alloc: Global, tokens: &mut Tokens<'_>, room: u8) -> Result<Vec<Stmt>, Fault>
    requires { room < 255 }
    ensures { Reads lists.statements (parts.ended room tokens.old) result tokens.new }
{
    let statements = statement_list(alloc, tokens, room)?;
    match tokens.expect(Symbol::Word(Reserved::End)) {
        Ok(_) => Ok(statements),
        Err(fault) => {
            drop(statements);
            Err(fault)
        }
    }
}

/// Declarations and statements between BEGIN and END.
#[tactic(auto, using(spl_tokens::proofs::Steps::steps, crate::proofs::PartLemmas::block_is), unfolding(spl_reading::specs::Readers::pure, spl_reading::specs::Readers::refuse, spl_reading::specs::Readers::followed, spl_reading::specs::Readers::and_then))]
fn block_body(
    alloc: Global,
    tokens: &mut Tokens<'_>,
    room: u8,
    segment: u16,
) -> Result<(Vec<Decl>, Vec<Stmt>), Fault>
    requires { room < 255 }
    ensures { Reads lists.body (parts.block_body room segment tokens.old) result tokens.new }
{
    tokens.take()?;
    let declarations = Declarations {
        alloc,
        room,
        unit: false,
        body: no_body,
        statement: subroutine_statement,
    };
    let items = declarations.list(tokens, segment)?;
    match ended(alloc, tokens, room) {
        Ok(statements) => Ok((items, statements)),
        Err(fault) => {
            drop(items);
            Err(fault)
        }
    }
}

/// A statement as a body.
#[tactic(auto, using(spl_tokens::proofs::Steps::steps), unfolding(spl_reading::specs::Readers::pure, spl_reading::specs::Readers::refuse, spl_reading::specs::Readers::followed, spl_reading::specs::Readers::and_then))]
fn single_body(
    alloc: Global,
    tokens: &mut Tokens<'_>,
    room: u8,
) -> Result<(Vec<Decl>, Vec<Stmt>), Fault>
    ensures { Reads lists.body (parts.single_body room tokens.old) result tokens.new }
{
    let only = statement(alloc, tokens, room)?;
    if can_be_body(&only) {
        Ok((Vec::new(alloc), vec![in alloc; only]?))
    } else {
        Err(Fault::Syntax)
    }
}

/// The body of a procedure of a segment.
#[tactic(auto, using(spl_tokens::proofs::Steps::steps), unfolding(spl_reading::specs::Readers::pure, spl_reading::specs::Readers::refuse, spl_reading::specs::Readers::followed, spl_reading::specs::Readers::and_then, spl_reading::specs::ReadDeclarations::body))]
fn body(
    alloc: Global,
    tokens: &mut Tokens<'_>,
    room: u8,
    segment: u16,
) -> Result<(Vec<Decl>, Vec<Stmt>), Fault>
    requires { room < 255 }
    ensures { Reads lists.body (spec.body room segment tokens.old) result tokens.new }
{
    if same(tokens.peek()?, Symbol::Word(Reserved::Begin)) {
        block_body(alloc, tokens, room, segment)
    } else {
        single_body(alloc, tokens, room)
    }
}

/// The declarations of a unit.
fn unit_declarations(alloc: Global, tokens: &mut Tokens<'_>, room: u8) -> Result<Vec<Decl>, Fault>
    requires { room < 255 }
    ensures { Reads lists.declarations (spec.declaration_list room (spec.body room) true 0 tokens.old) result tokens.new }
{
    let declarations = Declarations {
        alloc,
        room,
        unit: true,
        body,
        statement: subroutine_statement,
    };
    declarations.list(tokens, 0)
}

/// The dot of a unit, and the end of its tokens.
#[tactic(auto, using(spl_tokens::proofs::Steps::steps), unfolding(spl_reading::specs::Readers::pure, spl_reading::specs::Readers::refuse, spl_reading::specs::Readers::followed, spl_reading::specs::Readers::and_then, crate::specs::UnitParts::stopped))]
fn stopped<'a>(tokens: &mut Tokens<'a>) -> Result<&'a Token, Fault>
    ensures { Reads shown (parts.stopped tokens.old) result tokens.new }
{
    tokens.expect(Symbol::Dot)?;
    tokens.expect(Symbol::Stop)
}

/// The main body of a unit, with the segment in force at its first token.
#[tactic(auto, using(spl_tokens::proofs::Steps::steps), unfolding(spl_reading::specs::Readers::pure, spl_reading::specs::Readers::refuse, spl_reading::specs::Readers::followed, spl_reading::specs::Readers::and_then, crate::specs::UnitParts::main_body))]
fn main_body(alloc: Global, tokens: &mut Tokens<'_>, room: u8) -> Result<(u16, Vec<Stmt>), Fault>
    requires { room < 255 }
    ensures { Reads parts.main (parts.main_body room tokens.old) result tokens.new }
{
    let segment = tokens.segment()?;
    let statements = ended(alloc, tokens, room)?;
    match stopped(tokens) {
        Ok(_) => Ok((segment, statements)),
        Err(fault) => {
            drop(statements);
            Err(fault)
        }
    }
}

/// The parts of a unit by what was read; its subroutines get the segment of the main body.
fn unit_parts(
    alloc: Global,
    declared: Vec<Decl>,
    main: (u16, Vec<Stmt>),
    at: At,
) -> Result<UnitParts, AllocError>
    ensures { IfOk result (λ u. parts.parts u ≡ parts.unit_of (lists.declarations declared) (parts.main main) at) }
{
    let (segment, statements) = main;
    match all_in_segment(alloc, declared, segment) {
        Ok(items) => Ok(UnitParts {
            items,
            statements,
            segment,
            at,
        }),
        Err(error) => {
            drop(statements);
            Err(error)
        }
    }
}

/// A unit, where so many constructs may be opened.
#[tactic(auto, using(spl_tokens::proofs::Steps::steps, crate::proofs::PartLemmas::unit_is), unfolding(spl_reading::specs::Readers::pure, spl_reading::specs::Readers::refuse, spl_reading::specs::Readers::followed, spl_reading::specs::Readers::and_then))]
pub fn unit(alloc: Global, tokens: &mut Tokens<'_>, room: u8) -> Result<UnitParts, Fault>
    requires { room < 255 }
    ensures { Reads parts.parts (spec.unit room tokens.old) result tokens.new }
{
    let at = tokens.expect(Symbol::Word(Reserved::Begin))?.at;
    let declared = unit_declarations(alloc, tokens, room)?;
    match main_body(alloc, tokens, room) {
        Ok(main) => Ok(unit_parts(alloc, declared, main, at)?),
        Err(fault) => {
            drop(declared);
            Err(fault)
        }
    }
}
