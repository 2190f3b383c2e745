//! Bodies with their own lists of declarations, and the subroutines in these.
ghost use Rattle.std.specs.Prelude.{◌≡◌, map, OnOk};
ghost use Rattle.spl_tree.specs.DeclarationTrees.{declarations};
ghost use Rattle.spl_tree.specs.Spells.{declaration, heading_tree};
ghost use Rattle.spl_tree.specs.Views as view;
ghost use Rattle.spl_sound.specs.spl_meaning.Names as n;
ghost use Rattle.spl_sound.specs.spl_meaning.Names.{find};
ghost use Rattle.spl_sound.specs.spl_meaning.DeclarationRules.{subroutine_scope};
ghost use Rattle.spl_sorts.specs.Tables.{table_of};
ghost use Rattle.spl_uses.specs.Scopes.{scope_of};
ghost use Rattle.spl_uses.specs.spl_found.FoundDeclarations.{found_subroutine, found_inner, found_subroutines};
ghost use Rattle.spl_types.specs.Insides.{inside_of};

use spl_flow::subroutine_body;
use spl_lists::{heading, parameters};
use spl_sorts::{Names, Report, Table};
use spl_tree::{Decl, Heading, Name, Stmt};
use spl_uses::Scope;
use std::alloc::{AllocError, Global};

/// What a body with its own list of declarations may use.
#[derive(Clone, Copy, Debug)]
pub struct Inside<'t> {
    /// Its own list.
    pub own: &'t Table,
    /// The list of its unit up to it.
    pub outer: &'t Table,
    /// The procedure, where its own list does not hide its name.
    pub procedure: Option<&'t Name>,
    /// Whether that procedure is split.
    pub split: bool,
    pub is_main: bool,
}

impl<'t> Inside<'t> {
    /// What its statements may use.
    #[tactic(auto, using(crate::proofs::InsideLaws::insides))]
    pub fn scope(&self) -> Scope<'t>
        ensures { scope_of result ≡ inside_of self.now }
    {
        Scope {
            names: Names {
                inner: self.own,
                own: self.own,
                outer: self.outer,
            },
            all_local: self.is_main,
            subroutine: None,
            procedure: self.procedure,
            split: self.split,
            is_main: self.is_main,
        }
    }
}

/// What a subroutine with these parameters may use.
fn subroutine_scope<'t>(
    inside: Inside<'t>,
    heading: &'t Heading,
    parameters: &'t Table,
) -> Scope<'t>
    requires { find (table_of parameters.now) ≡ find (n.parameters (n.formals_of (heading_tree heading.now))) }
    ensures { scope_of result ≡ subroutine_scope (inside_of inside.entry) (heading_tree heading.now) }
{
    Scope {
        names: Names {
            inner: parameters,
            own: inside.own,
            outer: inside.outer,
        },
        all_local: inside.is_main,
        subroutine: Some(&heading.name),
        procedure: inside.procedure,
        split: inside.split,
        is_main: false,
    }
}

/// The rules of a subroutine.
fn subroutine<'t>(
    alloc: Global,
    inside: Inside<'t>,
    head: &'t Heading,
    statement: &Stmt,
    report: &mut Report,
) -> Result<(), AllocError>
    ensures { OnOk result (report.new ≡ found_subroutine (inside_of inside.entry) (heading_tree head.now) (view.statement statement.now) report.old) }
{
    let formals = heading(alloc, inside.split, head, report)?;
    let parameters = parameters(alloc, &formals)?;
    let scope = subroutine_scope(inside, head, &parameters);
    subroutine_body(alloc, &scope, statement, report)
}

/// The rules of a declaration, where it is a subroutine.
fn inner<'t>(
    alloc: Global,
    inside: Inside<'t>,
    item: &'t Decl,
    report: &mut Report,
) -> Result<(), AllocError>
    ensures { OnOk result (report.new ≡ found_inner (inside_of inside.entry) (declaration item.now) report.old) }
{
    match item {
        Decl::Subroutine(heading, statement) => {
            subroutine(alloc, inside, heading, statement, report)?;
        }
        Decl::Data { .. }
        | Decl::Equate(_)
        | Decl::Intrinsic(_)
        | Decl::Label(_)
        | Decl::Forward(_)
        | Decl::External(_)
        | Decl::Procedure(..) => {}
    }
    Ok(())
}

/// The rules of the subroutines of a list.
#[tactic(auto, using(crate::proofs::InsideLaws::inners))]
pub fn subroutines<'t>(
    alloc: Global,
    inside: Inside<'t>,
    items: &'t [Decl],
    report: &mut Report,
) -> Result<(), AllocError>
    ensures { OnOk result (report.new ≡ found_subroutines (inside_of inside.entry) (declarations (map declaration items.now)) report.old) }
{
    for item in items {
        inner(alloc, inside, item, report)?;
    }
    Ok(())
}
