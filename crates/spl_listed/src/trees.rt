//! The trees of declarations.
ghost use Rattle.std.specs.Prelude.{◌≡◌, IfOk, map};
ghost use Rattle.spl_tree.specs.DeclarationTrees as decl;
ghost use Rattle.spl_tree.specs.Declarations as dl;
ghost use Rattle.spl_tree.specs.Views as view;
ghost use Rattle.spl_tree.specs.Spells as spells;
ghost use Rattle.spl_reading.specs.ReadDeclarations as spec;
ghost use Rattle.spl_listed.specs.Lists as lists;

use spl_tree::{At, Body, Const, Decl, Heading, Item, Kind, Name, Stmt};
use std::alloc::{AllocError, Global};

pub fn declared_data(own: bool, kind: Kind, items: Vec<Item>) -> Decl
    ensures { spells.declaration result ≡ decl.Declaration.data_items own kind (lists.items items) }
{
    Decl::Data { own, kind, items }
}

pub fn equate(equals: Vec<(Name, At, Vec<(bool, Const)>)>) -> Decl
    ensures { spells.declaration result ≡ decl.Declaration.equate (lists.equals equals) }
{
    Decl::Equate(equals)
}

pub fn intrinsic(names: Vec<(Name, At)>) -> Decl
    ensures { spells.declaration result ≡ decl.Declaration.intrinsic (lists.names names) }
{
    Decl::Intrinsic(names)
}

pub fn label(names: Vec<(Name, At)>) -> Decl
    ensures { spells.declaration result ≡ decl.Declaration.label (lists.names names) }
{
    Decl::Label(names)
}

pub fn forward(heading: Heading) -> Decl
    ensures { spells.declaration result ≡ decl.Declaration.forward (spells.heading_tree heading) }
{
    Decl::Forward(heading)
}

pub fn external(heading: Heading) -> Decl
    ensures { spells.declaration result ≡ decl.Declaration.external (spells.heading_tree heading) }
{
    Decl::External(heading)
}

pub fn procedure(heading: Heading, items: Vec<Decl>, statements: Vec<Stmt>) -> Decl
    ensures { spells.declaration result ≡ decl.Declaration.procedure (spells.heading_tree heading) (decl.declarations (lists.declarations items)) (lists.statements statements) }
{
    Decl::Procedure(heading, Body { items, statements })
}

pub fn subroutine(heading: Heading, statement: Stmt) -> Decl
    ensures { spells.declaration result ≡ decl.Declaration.subroutine (spells.heading_tree heading) (view.statement statement) }
{
    Decl::Subroutine(heading, statement)
}

/// Whether a declaration is a subroutine.
pub fn is_subroutine(declaration: &Decl) -> bool
    ensures { result ≡ dl.is_subroutine (spells.declaration declaration.now) }
{
    match declaration {
        Decl::Data { .. } => false,
        Decl::Equate(_) => false,
        Decl::Intrinsic(_) => false,
        Decl::Label(_) => false,
        Decl::Forward(_) => false,
        Decl::External(_) => false,
        Decl::Procedure(_, _) => false,
        Decl::Subroutine(_, _) => true,
    }
}

/// Whether a statement can be a body: it is neither empty nor a block.
pub fn can_be_body(statement: &Stmt) -> bool
    ensures { result ≡ dl.can_be_body (view.statement statement.now) }
{
    match statement {
        Stmt::Empty => false,
        Stmt::Labelled { .. } => true,
        Stmt::Block(_) => false,
        Stmt::If { .. } => true,
        Stmt::While { .. } => true,
        Stmt::Until { .. } => true,
        Stmt::For { .. } => true,
        Stmt::Case { .. } => true,
        Stmt::Goto(_, _) => true,
        Stmt::Return(_) => true,
        Stmt::Assign { .. } => true,
        Stmt::AssignEffect { .. } => true,
        Stmt::Do(_, _) => true,
        Stmt::Call { .. } => true,
    }
}

/// A heading of this segment.
fn placed(heading: Heading, segment: u16) -> Heading
    ensures { spells.heading_tree result ≡ lists.heading_in segment (spells.heading_tree heading) }
{
    Heading {
        result: heading.result,
        name: heading.name,
        names: heading.names,
        values: heading.values,
        specs: heading.specs,
        split: heading.split,
        at: heading.at,
        segment,
    }
}

/// A declaration; a subroutine is of this segment.
fn in_segment(declaration: Decl, segment: u16) -> Decl
    ensures { spells.declaration result ≡ spec.of_segment segment (spells.declaration declaration) }
{
    match declaration {
        Decl::Subroutine(heading, statement) => subroutine(placed(heading, segment), statement),
        other => other,
    }
}

/// Declarations whose subroutines are of this segment.
pub fn all_in_segment(
    alloc: Global,
    declarations: Vec<Decl>,
    segment: u16,
) -> Result<Vec<Decl>, AllocError>
    ensures { IfOk result (λ ds. lists.declarations ds ≡ map (spec.of_segment segment) (lists.declarations declarations)) }
{
    let mut placed = Vec::new(alloc);
    for declaration in declarations {
        placed.push(in_segment(declaration, segment))?;
    }
    Ok(placed)
}
