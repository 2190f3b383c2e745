//! Declarations, with the headings and bodies of procedures.
use crate::expressions::{Const, Kind};
use crate::names_and_places::{At, Name};
use crate::statements::Stmt;

/// The heading of a procedure or a subroutine.
#[derive(Debug, Drop)]
pub struct Heading {
    /// The kind of its result, where it has one.
    pub result: Option<Kind>,
    pub name: Name,
    /// Its parameters in order.
    pub names: Vec<(Name, At)>,
    /// Those that VALUE lists.
    pub values: Vec<(Name, At)>,
    /// Their kinds.
    pub specs: Vec<Spec>,
    /// That it has the option SPLIT.
    pub split: bool,
    /// The place of its name.
    pub at: At,
    /// The number of the segment in force at PROCEDURE; of a subroutine, the segment of what it stands in.
    pub segment: u16,
}

/// The kind of some parameters, and whether they are arrays.
#[derive(Debug, Drop)]
pub struct Spec {
    pub kind: Kind,
    pub array: bool,
    pub names: Vec<(Name, At)>,
}

/// One name of a data declaration, with its initial values.
#[derive(Debug, Drop)]
pub struct Item {
    pub name: Name,
    pub at: At,
    pub shape: Shape,
    pub first: Vec<Const>,
}

/// What a data name is: a variable, an array with its bounds, a view of another array or variable, or a pointer.
#[derive(Debug, Drop)]
pub enum Shape {
    Simple,
    Array { low: Const, high: Const },
    View(Name),
    Pointer,
}

/// A declaration.
#[cycle(declaration)]
#[derive(Debug, Drop)]
pub enum Decl {
    Data {
        own: bool,
        kind: Kind,
        items: Vec<Item>,
    },
    /// Names of sums of constants; the flag of a part says that it is subtracted.
    Equate(Vec<(Name, At, Vec<(bool, Const)>)>),
    Intrinsic(Vec<(Name, At)>),
    Label(Vec<(Name, At)>),
    /// A heading whose body comes later in the unit.
    Forward(Heading),
    /// A heading whose body stands in another unit.
    External(Heading),
    Procedure(Heading, Body),
    Subroutine(Heading, Stmt),
}

/// What a procedure has: declarations and statements.
#[cycle(declaration)]
#[derive(Debug, Drop)]
pub struct Body {
    pub items: Vec<Decl>,
    pub statements: Vec<Stmt>,
}
