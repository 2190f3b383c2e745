//! Declarations. The rules that read the body of a procedure and the statement of a subroutine are parameters: in a
//! procedure no procedure is declared, and what is declared is proved apart from what a statement is.
ghost use Rattle.std.specs.Prelude.{◌≡◌, ◌++◌, [], ◌∷◌, if◌then◌else◌, IfOk};
ghost use Rattle.spl_tree.specs.Spells as spells;
ghost use Rattle.spl_reading.specs.Readers as readers;
ghost use Rattle.spl_tokens.specs.Reads.{Reads, paired};
ghost use Rattle.spl_listed.specs.Lists as lists;
ghost use Rattle.spl_headings.specs.Headings as headings;
ghost use Rattle.spl_declarations.specs.Nests.{ReadsBodies, ReadsStatements};
ghost use Rattle.spl_declarations.specs.Nests as nests;
ghost use Rattle.spl_declarations.specs.Pieces as pieces;

use spl_headings::{Options, heading, names, option_list, with_split};
use spl_items::{arrays, equals, items, pointers};
use spl_listed::{
    declared_data, equate, external, forward, intrinsic, is_subroutine, label, procedure,
    subroutine,
};
use spl_tokens::{Fault, Tokens, same};
use spl_tree::{Decl, Heading, Kind, Reserved, Stmt, Symbol};
use std::alloc::{AllocError, Global};

/// The rules of declarations, where so many constructs may be opened.
#[derive(Clone, Copy)]
pub struct Declarations<B, S> {
    pub alloc: Global,
    pub room: u8,
    /// Whether procedures are declared.
    pub unit: bool,
    /// Reads the body of a procedure of a segment.
    pub body: B,
    /// Reads the statement of a subroutine.
    pub statement: S,
}

/// A list of arrays, from the word ARRAY on.
#[tactic(auto, using(spl_tokens::proofs::Steps::steps), unfolding(spl_reading::specs::Readers::pure, spl_reading::specs::Readers::refuse, spl_reading::specs::Readers::followed, spl_reading::specs::Readers::and_then))]
fn array_data(alloc: Global, tokens: &mut Tokens<'_>, own: bool, kind: Kind) -> Result<Decl, Fault>
    ensures { Reads spells.declaration (nests.arrays own kind tokens.old) result tokens.new }
{
    tokens.take()?;
    let items = arrays(alloc, tokens)?;
    Ok(declared_data(own, kind, items))
}

/// A list of variables.
#[tactic(auto, using(spl_tokens::proofs::Steps::steps), unfolding(spl_reading::specs::Readers::pure, spl_reading::specs::Readers::refuse, spl_reading::specs::Readers::followed, spl_reading::specs::Readers::and_then))]
fn item_data(alloc: Global, tokens: &mut Tokens<'_>, own: bool, kind: Kind) -> Result<Decl, Fault>
    ensures { Reads spells.declaration (nests.items own kind tokens.old) result tokens.new }
{
    let items = items(alloc, tokens)?;
    Ok(declared_data(own, kind, items))
}

/// A list of pointers, from the word POINTER on.
#[tactic(auto, using(spl_tokens::proofs::Steps::steps), unfolding(spl_reading::specs::Readers::pure, spl_reading::specs::Readers::refuse, spl_reading::specs::Readers::followed, spl_reading::specs::Readers::and_then))]
fn pointer_data(alloc: Global, tokens: &mut Tokens<'_>, kind: Kind) -> Result<Decl, Fault>
    ensures { Reads spells.declaration (nests.pointers kind tokens.old) result tokens.new }
{
    tokens.take()?;
    let names = names(alloc, tokens)?;
    let items = pointers(alloc, names)?;
    Ok(declared_data(false, kind, items))
}

/// Owned variables or arrays, behind OWN and their kind.
#[tactic(auto, using(spl_tokens::proofs::Steps::steps), unfolding(spl_reading::specs::Readers::pure, spl_reading::specs::Readers::refuse, spl_reading::specs::Readers::followed, spl_reading::specs::Readers::and_then))]
fn owned_typed(alloc: Global, tokens: &mut Tokens<'_>, kind: Kind) -> Result<Decl, Fault>
    ensures { Reads spells.declaration (nests.owned_typed kind tokens.old) result tokens.new }
{
    tokens.take()?;
    if same(tokens.peek()?, Symbol::Word(Reserved::Array)) {
        array_data(alloc, tokens, true, kind)
    } else {
        item_data(alloc, tokens, true, kind)
    }
}

/// Owned arrays without a kind, behind OWN.
#[tactic(auto, using(spl_tokens::proofs::Steps::steps), unfolding(spl_reading::specs::Readers::pure, spl_reading::specs::Readers::refuse, spl_reading::specs::Readers::followed, spl_reading::specs::Readers::and_then))]
fn owned_untyped(alloc: Global, tokens: &mut Tokens<'_>) -> Result<Decl, Fault>
    ensures { Reads spells.declaration (nests.owned_untyped tokens.old) result tokens.new }
{
    if same(tokens.peek()?, Symbol::Word(Reserved::Array)) {
        array_data(alloc, tokens, true, Kind::Logical)
    } else {
        Err(Fault::Syntax)
    }
}

/// Owned variables, arrays or views, behind OWN.
#[tactic(auto, using(spl_tokens::proofs::Steps::steps), unfolding(spl_reading::specs::Readers::pure, spl_reading::specs::Readers::refuse, spl_reading::specs::Readers::followed, spl_reading::specs::Readers::and_then, spl_reading::specs::ReadDeclarations::owned_by, spl_reading::specs::ReadDeclarations::array_data, spl_reading::specs::ReadDeclarations::item_data))]
fn owned(alloc: Global, tokens: &mut Tokens<'_>, room: u8, unit: bool) -> Result<Decl, Fault>
    ensures { Reads spells.declaration (nests.owned room unit tokens.old) result tokens.new }
{
    match tokens.peek()? {
        Symbol::Type(kind) => owned_typed(alloc, tokens, kind),
        _ => owned_untyped(alloc, tokens),
    }
}

/// Whether a declaration begins with the symbol.
#[tactic(auto, unfolding(spl_reading::specs::ReadDeclarations::declares))]
fn declares(symbol: Symbol, room: u8, unit: bool) -> bool
    ensures { result ≡ nests.declares room unit symbol }
{
    match symbol {
        Symbol::Type(_) => true,
        Symbol::Word(Reserved::Subroutine) => true,
        Symbol::Word(Reserved::Own) => true,
        Symbol::Word(Reserved::Array) => true,
        Symbol::Word(Reserved::Equate) => true,
        Symbol::Word(Reserved::Intrinsic) => true,
        Symbol::Word(Reserved::Label) => true,
        Symbol::Word(Reserved::Procedure) => true,
        _ => false,
    }
}

/// A list with one declaration more.
#[tactic(auto, using(spl_tokens::proofs::Steps::pushed))]
fn pushed(read: Vec<Decl>, next: Decl) -> Result<Vec<Decl>, AllocError>
    ensures { IfOk result (λ ds. lists.declarations ds ≡ lists.declarations read ++ spells.declaration next ∷ []) }
{
    let mut read = read;
    match read.push(next) {
        Ok(()) => Ok(read),
        Err(error) => {
            drop(read);
            Err(error.into())
        }
    }
}

impl<
    B: Fn(Global, &mut Tokens<'_>, u8, u16) -> Result<(Vec<Decl>, Vec<Stmt>), Fault> + Copy,
    S: Fn(Global, &mut Tokens<'_>, u8) -> Result<Stmt, Fault> + Copy,
> Declarations<B, S> {
    /// A procedure with the body that stands behind its heading.
    #[tactic(auto, using(spl_tokens::proofs::Steps::steps), unfolding(spl_reading::specs::Readers::pure, spl_reading::specs::Readers::refuse, spl_reading::specs::Readers::followed, spl_reading::specs::Readers::and_then))]
    fn with_body(&self, tokens: &mut Tokens<'_>, heading: Heading) -> Result<Decl, Fault>
        requires bodies { ReadsBodies self.now.room self.now.unit (B.pre self.now.body) (B.post self.now.body) }
        ensures { Reads spells.declaration (nests.with_body self.now.room self.now.unit (spells.heading_tree heading) tokens.old) result tokens.new }
    {
        match (self.body)(self.alloc, tokens, self.room, heading.segment) {
            Ok((items, statements)) => Ok(procedure(heading, items, statements)),
            Err(fault) => {
                drop(heading);
                Err(fault)
            }
        }
    }

    /// A procedure behind its options: FORWARD and EXTERNAL have no body.
    #[tactic(auto, using(spl_tokens::proofs::Steps::steps), unfolding(spl_reading::specs::Readers::pure, spl_reading::specs::Readers::refuse, spl_reading::specs::Readers::followed, spl_reading::specs::Readers::and_then))]
    fn optioned(
        &self,
        tokens: &mut Tokens<'_>,
        heading: Heading,
        options: Options,
    ) -> Result<Decl, Fault>
        requires bodies { ReadsBodies self.now.room self.now.unit (B.pre self.now.body) (B.post self.now.body) }
        ensures { Reads spells.declaration (nests.optioned self.now.room self.now.unit (headings.heading heading) (headings.options options) tokens.old) result tokens.new }
    {
        let heading = with_split(heading, options.split);
        if options.forward {
            Ok(forward(heading))
        } else if options.external {
            Ok(external(heading))
        } else {
            tokens.expect(Symbol::Semicolon)?;
            self.with_body(tokens, heading)
        }
    }

    /// A procedure behind its heading.
    #[tactic(auto, using(spl_tokens::proofs::Steps::steps), unfolding(spl_reading::specs::Readers::pure, spl_reading::specs::Readers::refuse, spl_reading::specs::Readers::followed, spl_reading::specs::Readers::and_then, spl_reading::specs::ReadDeclarations::behind_heading))]
    fn behind_heading(&self, tokens: &mut Tokens<'_>, heading: Heading) -> Result<Decl, Fault>
        requires bodies { ReadsBodies self.now.room self.now.unit (B.pre self.now.body) (B.post self.now.body) }
        ensures { Reads spells.declaration (nests.behind_heading self.now.room self.now.unit (headings.heading heading) tokens.old) result tokens.new }
    {
        if same(tokens.peek()?, Symbol::Word(Reserved::Options)) {
            tokens.take()?;
            let options = option_list(tokens)?;
            self.optioned(tokens, heading, options)
        } else {
            self.with_body(tokens, with_split(heading, false))
        }
    }

    /// A procedure, from its word on.
    #[tactic(auto, using(spl_tokens::proofs::Steps::steps), unfolding(spl_reading::specs::Readers::pure, spl_reading::specs::Readers::refuse, spl_reading::specs::Readers::followed, spl_reading::specs::Readers::and_then, spl_reading::specs::ReadDeclarations::procedure))]
    fn procedure(&self, tokens: &mut Tokens<'_>, kind: Option<Kind>) -> Result<Decl, Fault>
        requires bodies { ReadsBodies self.now.room self.now.unit (B.pre self.now.body) (B.post self.now.body) }
        ensures { Reads spells.declaration (nests.procedure self.now.room self.now.unit kind tokens.old) result tokens.new }
    {
        let heading = heading(self.alloc, tokens, kind, None)?;
        self.behind_heading(tokens, heading)
    }

    /// A subroutine, from its word on.
    #[tactic(auto, using(spl_tokens::proofs::Steps::steps), unfolding(spl_reading::specs::Readers::pure, spl_reading::specs::Readers::refuse, spl_reading::specs::Readers::followed, spl_reading::specs::Readers::and_then, spl_reading::specs::ReadDeclarations::subroutine))]
    fn subroutine(
        &self,
        tokens: &mut Tokens<'_>,
        segment: u16,
        kind: Option<Kind>,
    ) -> Result<Decl, Fault>
        requires statements { ReadsStatements self.now.room (S.pre self.now.statement) (S.post self.now.statement) }
        ensures { Reads spells.declaration (nests.subroutine self.now.room self.now.unit segment kind tokens.old) result tokens.new }
    {
        let heading = heading(self.alloc, tokens, kind, Some(segment))?;
        match (self.statement)(self.alloc, tokens, self.room) {
            Ok(inside) => Ok(subroutine(with_split(heading, false), inside)),
            Err(fault) => {
                drop(heading);
                Err(fault)
            }
        }
    }

    /// A declaration behind the word of its kind; behind subroutines only subroutines stand.
    #[tactic(auto, using(spl_tokens::proofs::Steps::steps), unfolding(spl_reading::specs::Readers::pure, spl_reading::specs::Readers::refuse, spl_reading::specs::Readers::followed, spl_reading::specs::Readers::and_then, spl_reading::specs::ReadDeclarations::typed, spl_reading::specs::ReadDeclarations::typed_by, spl_reading::specs::ReadDeclarations::array_data, spl_reading::specs::ReadDeclarations::item_data))]
    fn typed(
        &self,
        tokens: &mut Tokens<'_>,
        after: bool,
        segment: u16,
        kind: Kind,
    ) -> Result<Decl, Fault>
        requires bodies { ReadsBodies self.now.room self.now.unit (B.pre self.now.body) (B.post self.now.body) }
        requires statements { ReadsStatements self.now.room (S.pre self.now.statement) (S.post self.now.statement) }
        ensures { Reads spells.declaration (nests.typed self.now.room self.now.unit after segment kind tokens.old) result tokens.new }
    {
        let next = tokens.peek()?;
        if same(next, Symbol::Word(Reserved::Subroutine)) {
            self.subroutine(tokens, segment, Some(kind))
        } else if after {
            Err(Fault::Syntax)
        } else if same(next, Symbol::Word(Reserved::Array)) {
            array_data(self.alloc, tokens, false, kind)
        } else if same(next, Symbol::Word(Reserved::Pointer)) {
            pointer_data(self.alloc, tokens, kind)
        } else if same(next, Symbol::Word(Reserved::Procedure)) {
            self.unit_procedure(tokens, Some(kind))
        } else {
            item_data(self.alloc, tokens, false, kind)
        }
    }

    /// A procedure, where one may be declared.
    #[tactic(auto, using(spl_tokens::proofs::Steps::steps), unfolding(spl_reading::specs::Readers::pure, spl_reading::specs::Readers::refuse, spl_reading::specs::Readers::followed, spl_reading::specs::Readers::and_then))]
    fn unit_procedure(&self, tokens: &mut Tokens<'_>, kind: Option<Kind>) -> Result<Decl, Fault>
        requires bodies { ReadsBodies self.now.room self.now.unit (B.pre self.now.body) (B.post self.now.body) }
        ensures { Reads spells.declaration ((if self.now.unit then nests.procedure self.now.room self.now.unit kind else readers.refuse) tokens.old) result tokens.new }
    {
        if self.unit {
            self.procedure(tokens, kind)
        } else {
            Err(Fault::Syntax)
        }
    }

    /// A declaration by its reserved word.
    #[tactic(auto, using(spl_tokens::proofs::Steps::steps), unfolding(spl_reading::specs::Readers::pure, spl_reading::specs::Readers::refuse, spl_reading::specs::Readers::followed, spl_reading::specs::Readers::and_then, spl_reading::specs::ReadDeclarations::by_word, spl_reading::specs::ReadDeclarations::array_data))]
    fn by_word(
        &self,
        tokens: &mut Tokens<'_>,
        after: bool,
        segment: u16,
        word: Reserved,
    ) -> Result<Decl, Fault>
        requires bodies { ReadsBodies self.now.room self.now.unit (B.pre self.now.body) (B.post self.now.body) }
        requires statements { ReadsStatements self.now.room (S.pre self.now.statement) (S.post self.now.statement) }
        ensures { Reads spells.declaration (nests.by_word self.now.room self.now.unit after segment word tokens.old) result tokens.new }
    {
        match word {
            Reserved::Subroutine => self.subroutine(tokens, segment, None),
            _ if after => Err(Fault::Syntax),
            Reserved::Own => {
                tokens.take()?;
                owned(self.alloc, tokens, self.room, self.unit)
            }
            Reserved::Array => array_data(self.alloc, tokens, false, Kind::Logical),
            Reserved::Equate => {
                tokens.take()?;
                Ok(equate(equals(self.alloc, tokens)?))
            }
            Reserved::Intrinsic => {
                tokens.take()?;
                Ok(intrinsic(names(self.alloc, tokens)?))
            }
            Reserved::Label => {
                tokens.take()?;
                Ok(label(names(self.alloc, tokens)?))
            }
            Reserved::Procedure => self.unit_procedure(tokens, None),
            _ => Err(Fault::Syntax),
        }
    }

    /// A declaration; behind subroutines only subroutines stand.
    #[tactic(auto, using(spl_tokens::proofs::Steps::steps), unfolding(spl_reading::specs::Readers::pure, spl_reading::specs::Readers::refuse, spl_reading::specs::Readers::followed, spl_reading::specs::Readers::and_then, spl_reading::specs::ReadDeclarations::declaration, spl_reading::specs::ReadDeclarations::declaration_by))]
    fn declaration(&self, tokens: &mut Tokens<'_>, after: bool, segment: u16) -> Result<Decl, Fault>
        requires bodies { ReadsBodies self.now.room self.now.unit (B.pre self.now.body) (B.post self.now.body) }
        requires statements { ReadsStatements self.now.room (S.pre self.now.statement) (S.post self.now.statement) }
        ensures { Reads spells.declaration (nests.declaration self.now.room self.now.unit after segment tokens.old) result tokens.new }
    {
        match tokens.peek()? {
            Symbol::Type(kind) => {
                tokens.take()?;
                self.typed(tokens, after, segment, kind)
            }
            Symbol::Word(word) => self.by_word(tokens, after, segment, word),
            _ => Err(Fault::Syntax),
        }
    }

    /// A declaration with its semicolon.
    #[tactic(auto, using(spl_tokens::proofs::Steps::steps), unfolding(spl_reading::specs::Readers::pure, spl_reading::specs::Readers::refuse, spl_reading::specs::Readers::followed, spl_reading::specs::Readers::and_then, crate::specs::Pieces::ended))]
    fn ended(&self, tokens: &mut Tokens<'_>, after: bool, segment: u16) -> Result<Decl, Fault>
        requires bodies { ReadsBodies self.now.room self.now.unit (B.pre self.now.body) (B.post self.now.body) }
        requires statements { ReadsStatements self.now.room (S.pre self.now.statement) (S.post self.now.statement) }
        ensures { Reads spells.declaration (pieces.ended self.now.room self.now.unit after segment tokens.old) result tokens.new }
    {
        let next = self.declaration(tokens, after, segment)?;
        match tokens.expect(Symbol::Semicolon) {
            Ok(_) => Ok(next),
            Err(fault) => {
                drop(next);
                Err(fault)
            }
        }
    }

    /// A further declaration with its semicolon, where there is one.
    #[tactic(auto, using(spl_tokens::proofs::Steps::steps), unfolding(spl_reading::specs::Readers::pure, spl_reading::specs::Readers::refuse, spl_reading::specs::Readers::followed, spl_reading::specs::Readers::and_then, crate::specs::Pieces::next))]
    fn next(
        &self,
        tokens: &mut Tokens<'_>,
        after: bool,
        segment: u16,
    ) -> Result<Option<Decl>, Fault>
        requires bodies { ReadsBodies self.now.room self.now.unit (B.pre self.now.body) (B.post self.now.body) }
        requires statements { ReadsStatements self.now.room (S.pre self.now.statement) (S.post self.now.statement) }
        ensures { Reads pieces.optional (pieces.next self.now.room self.now.unit after segment tokens.old) result tokens.new }
    {
        if declares(tokens.peek()?, self.room, self.unit) {
            Ok(Some(self.ended(tokens, after, segment)?))
        } else {
            Ok(None)
        }
    }

    /// The declarations with a further one, and whether another may follow.
    #[tactic(auto, using(spl_tokens::proofs::Steps::steps, crate::proofs::PieceLemmas::further_is), unfolding(spl_reading::specs::Readers::pure, spl_reading::specs::Readers::refuse, spl_reading::specs::Readers::followed, spl_reading::specs::Readers::and_then))]
    fn further(
        &self,
        tokens: &mut Tokens<'_>,
        segment: u16,
        after: bool,
        read: Vec<Decl>,
    ) -> Result<(bool, (bool, Vec<Decl>)), Fault>
        requires bodies { ReadsBodies self.now.room self.now.unit (B.pre self.now.body) (B.post self.now.body) }
        requires statements { ReadsStatements self.now.room (S.pre self.now.statement) (S.post self.now.statement) }
        ensures { Reads (paired lists.state) (nests.more_declarations self.now.room self.now.unit segment (lists.state (after, read)) tokens.old) result tokens.new }
    {
        match self.next(tokens, after, segment) {
            Ok(None) => Ok((false, (after, read))),
            Ok(Some(next)) => {
                let after = is_subroutine(&next);
                Ok((true, (after, pushed(read, next)?)))
            }
            Err(fault) => {
                drop(read);
                Err(fault)
            }
        }
    }

    /// Declarations, each with its semicolon.
    #[tactic(auto, using(spl_tokens::proofs::Steps::steps, spl_tokens::proofs::Turns::loops), unfolding(spl_reading::specs::Readers::pure, spl_reading::specs::Readers::refuse, spl_reading::specs::Readers::followed, spl_reading::specs::Readers::and_then, spl_reading::specs::ReadDeclarations::declaration_list))]
    pub fn list(&self, tokens: &mut Tokens<'_>, segment: u16) -> Result<Vec<Decl>, Fault>
        requires bodies { ReadsBodies self.now.room self.now.unit (B.pre self.now.body) (B.post self.now.body) }
        requires statements { ReadsStatements self.now.room (S.pre self.now.statement) (S.post self.now.statement) }
        ensures { Reads lists.declarations (nests.declaration_list self.now.room self.now.unit segment tokens.old) result tokens.new }
    {
        let mut after = false;
        let mut read = Vec::new(self.alloc);
        for _turn in 0..tokens.left() + 1 {
            let (more, (subroutine, next)) = self.further(tokens, segment, after, read)?;
            if !more {
                return Ok(next);
            }
            after = subroutine;
            read = next;
        }
        Err(Fault::Syntax)
    }
}
