//! Which statements set the condition code.
ghost use Rattle.std.specs.Prelude.{◌≡◌, option_map};
ghost use Rattle.spl_tree.specs.Views as view;
ghost use Rattle.spl_sorts.specs.spl_meaning.Statements as meaning;
ghost use Rattle.spl_sorts.specs.spl_meaning.StatementRules as rules;
ghost use Rattle.spl_sorts.specs.Sorts.{sort_of};
ghost use Rattle.spl_sorts.specs.Tables.{names_of};

use spl_sorts::{Names, Sort};
use spl_tree::{Expr, Kind, Stmt, Target};

/// Whether a name is an intrinsic.
fn is_intrinsic(sort: Option<&Sort>) -> bool
    ensures { result ≡ meaning.is_intrinsic (option_map (λ s. sort_of s.now) sort.entry) }
{
    matches!(sort, Some(Sort::Intrinsic(_)))
}

/// Whether an expression is a call of an intrinsic and nothing else.
fn is_intrinsic_alone(names: &Names<'_>, e: &Expr) -> bool
    ensures { result ≡ meaning.is_intrinsic_alone (names_of names.now) (view.expression e.now) }
{
    match e {
        Expr::Named { name, .. } => is_intrinsic(names.find(name)),
        _ => false,
    }
}

/// Whether what is stored into keeps the code: a simple variable, a parameter or a result, that is not BYTE.
fn keeps_code(sort: Option<&Sort>) -> bool
    ensures { result ≡ meaning.keeps_code (option_map (λ s. sort_of s.now) sort.entry) }
{
    match sort {
        Some(Sort::Simple(kind, _) | Sort::Value(kind) | Sort::ByReference(kind)) => {
            !matches!(kind, Kind::Byte)
        }
        Some(Sort::Procedure(profile) | Sort::Subroutine(profile)) => {
            matches!(
                profile.result,
                Some(Kind::Integer | Kind::Logical | Kind::Double)
            )
        }
        _ => false,
    }
}

/// Whether a target keeps the code.
fn target_keeps_code(names: &Names<'_>, to: &Target) -> bool
    ensures { result ≡ meaning.target_keeps_code (names_of names.now) (view.target_tree to.now) }
{
    match to {
        Target::Plain(r) => match &r.index {
            None => keeps_code(names.find(&r.name)),
            Some(_) => false,
        },
        Target::Field { .. } | Target::Address(..) => false,
    }
}

/// Whether a statement sets the code, so that the one behind it may test it: it calls an intrinsic, or assigns such a call alone,
/// also behind labels.
pub fn sets_code(names: &Names<'_>, statement: &Stmt) -> bool
    ensures { result ≡ rules.sets_code (names_of names.now) (view.statement statement.now) }
{
    match statement {
        Stmt::Call { name, .. } => is_intrinsic(names.find(name)),
        Stmt::Assign { to, value, .. } => {
            is_intrinsic_alone(names, value) && target_keeps_code(names, to)
        }
        Stmt::Labelled { body, .. } => sets_code(names, body),
        _ => false,
    }
}
