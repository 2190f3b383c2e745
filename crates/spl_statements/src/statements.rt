//! Statements. The rule that reads the statement inside another is a parameter, so that each rule is proved by itself.
//!
//! At a fault what was read is dropped by a call of `drop`, as in the levels of operators: a `?` writes out the drop of all that
//! it lets go. So what is read behind a part is read by a function that holds none.
ghost use Rattle.std.specs.Prelude.{◌≡◌, ◌<◌, ◌-◌};
ghost use Rattle.spl_tree.specs.declared.symbols.Symbol.{Symbol};
ghost use Rattle.spl_tree.specs.declared.symbols.Reserved.{Reserved};
ghost use Rattle.spl_tree.specs.Views as view;
ghost use Rattle.spl_reading.specs.Readers as readers;
ghost use Rattle.spl_reading.specs.ReadStatements as spec;
ghost use Rattle.spl_within.specs.spl_parts.Parts.{expressions};
ghost use Rattle.spl_tokens.specs.Reads.{Reads, lexeme, paired};
ghost use Rattle.spl_effects.specs.References.{behind, statements};
ghost use Rattle.spl_statements.specs.Nests.{Nests};
ghost use Rattle.spl_statements.specs.Nests as nests;
ghost use Rattle.spl_statement_parts.specs.Parts as parts;
ghost use Rattle.spl_statements.specs.Pieces as pieces;

use spl_effects::{assigned, behind_reference, effect, element, test, variable};
use spl_statement_parts::{
    block, call, case_of, done, empty, for_values, go_to, if_test, labelled, pushed, returned,
    single, until_condition, until_true, values, while_true,
};
use spl_tokens::{Fault, Tokens, enter, name, same};
use spl_tree::{Expr, Reserved, Stmt, Symbol, Target, Test, Token};
use spl_within::{arguments_within, condition_within, expression_within};
use std::alloc::Global;

/// The rules of statements, where so many constructs may be opened.
#[derive(Clone, Copy)]
pub struct Statements<F> {
    pub alloc: Global,
    pub room: u8,
    /// Reads a statement inside.
    pub statement: F,
}

/// The label behind GO, GO TO or GOTO.
#[tactic(auto, using(spl_tokens::proofs::Steps::steps), unfolding(spl_reading::specs::Readers::pure, spl_reading::specs::Readers::refuse, spl_reading::specs::Readers::followed, spl_reading::specs::Readers::and_then, spl_reading::specs::ReadStatements::go_name))]
fn go_name(tokens: &mut Tokens<'_>, go: &Token) -> Result<Stmt, Fault>
    ensures { Reads view.statement (spec.go_name (lexeme go.now) tokens.old) result tokens.new }
{
    let token = tokens.expect(Symbol::Name)?;
    Ok(go_to(name(token), go.at))
}

/// A call by a name and its arguments, or an assignment to an element.
#[tactic(auto, using(spl_tokens::proofs::Steps::steps), unfolding(spl_reading::specs::Readers::pure, spl_reading::specs::Readers::refuse, spl_reading::specs::Readers::followed, spl_reading::specs::Readers::and_then))]
fn with_one(
    alloc: Global,
    tokens: &mut Tokens<'_>,
    room: u8,
    token: &Token,
    args: Vec<Expr>,
) -> Result<Stmt, Fault>
    requires name { (lexeme token.now).symbol ≡ Symbol.Name }
    ensures { Reads view.statement (nests.with_one room (lexeme token.now) (expressions args) tokens.old) result tokens.new }
{
    let mut args = args;
    let name = name(token);
    let at = token.at;
    if args.len() != 1 {
        return Ok(call(name, args, at));
    }
    match args.pop() {
        None => Ok(call(name, args, at)),
        Some(only) => {
            let reference = element(alloc, name, only, at)?;
            behind_reference(alloc, tokens, room, reference)
        }
    }
}

impl<F: Fn(Global, &mut Tokens<'_>, u8) -> Result<Stmt, Fault> + Copy> Statements<F> {
    /// The statement inside.
    #[tactic(auto, using(crate::proofs::NestLemmas::inner_is))]
    fn inside(&self, tokens: &mut Tokens<'_>) -> Result<Stmt, Fault>
        requires nests { Nests self.now.room (F.pre self.now.statement) (F.post self.now.statement) }
        requires room { 0 < self.now.room }
        ensures { Reads view.statement (nests.inner self.now.room tokens.old) result tokens.new }
    {
        (self.statement)(self.alloc, tokens, self.room - 1)
    }

    /// The statement inside, in a box.
    #[tactic(auto, using(spl_tokens::proofs::Steps::steps))]
    fn boxed(&self, tokens: &mut Tokens<'_>) -> Result<Box<Stmt>, Fault>
        requires nests { Nests self.now.room (F.pre self.now.statement) (F.post self.now.statement) }
        requires room { 0 < self.now.room }
        ensures { Reads parts.in_box (nests.inner self.now.room tokens.old) result tokens.new }
    {
        Ok(Box::new(self.alloc, self.inside(tokens)?)?)
    }

    /// The statement behind a semicolon, where there is one.
    #[tactic(auto, using(spl_tokens::proofs::Steps::steps), unfolding(spl_reading::specs::Readers::pure, spl_reading::specs::Readers::refuse, spl_reading::specs::Readers::followed, spl_reading::specs::Readers::and_then, crate::specs::Pieces::marked))]
    fn following(&self, tokens: &mut Tokens<'_>) -> Result<Option<Stmt>, Fault>
        requires nests { Nests self.now.room (F.pre self.now.statement) (F.post self.now.statement) }
        requires room { 0 < self.now.room }
        ensures { Reads pieces.optional (pieces.marked self.now.room Symbol.Semicolon tokens.old) result tokens.new }
    {
        if same(tokens.peek()?, Symbol::Semicolon) {
            tokens.take()?;
            Ok(Some(self.inside(tokens)?))
        } else {
            Ok(None)
        }
    }

    /// A further statement, and whether another may follow.
    #[tactic(auto, using(spl_tokens::proofs::Steps::steps, crate::proofs::PieceLemmas::further_is), unfolding(spl_reading::specs::Readers::pure, spl_reading::specs::Readers::refuse, spl_reading::specs::Readers::followed, spl_reading::specs::Readers::and_then))]
    fn further(&self, tokens: &mut Tokens<'_>, read: Vec<Stmt>) -> Result<(bool, Vec<Stmt>), Fault>
        requires nests { Nests self.now.room (F.pre self.now.statement) (F.post self.now.statement) }
        requires room { 0 < self.now.room }
        ensures { Reads (paired statements) (spec.more_statements (nests.inner self.now.room) (statements read) tokens.old) result tokens.new }
    {
        match self.following(tokens) {
            Ok(None) => Ok((false, read)),
            Ok(Some(next)) => Ok((true, pushed(read, next)?)),
            Err(fault) => {
                drop(read);
                Err(fault)
            }
        }
    }

    /// The further statements.
    #[tactic(auto, using(spl_tokens::proofs::Steps::steps, spl_tokens::proofs::Turns::loops), unfolding(spl_reading::specs::Readers::pure, spl_reading::specs::Readers::refuse, spl_reading::specs::Readers::followed, spl_reading::specs::Readers::and_then))]
    fn more(&self, tokens: &mut Tokens<'_>, read: Vec<Stmt>) -> Result<Vec<Stmt>, Fault>
        requires nests { Nests self.now.room (F.pre self.now.statement) (F.post self.now.statement) }
        requires room { 0 < self.now.room }
        ensures { Reads statements (readers.repeat (spec.more_statements (nests.inner self.now.room)) (statements read) tokens.old) result tokens.new }
    {
        let mut read = read;
        for _turn in 0..tokens.left() + 1 {
            let (more, next) = self.further(tokens, read)?;
            if !more {
                return Ok(next);
            }
            read = next;
        }
        Err(Fault::Syntax)
    }

    /// Statements.
    #[tactic(auto, using(spl_tokens::proofs::Steps::steps), unfolding(spl_reading::specs::Readers::pure, spl_reading::specs::Readers::refuse, spl_reading::specs::Readers::followed, spl_reading::specs::Readers::and_then, spl_reading::specs::ReadStatements::statement_list))]
    pub fn list(&self, tokens: &mut Tokens<'_>) -> Result<Vec<Stmt>, Fault>
        requires nests { Nests self.now.room (F.pre self.now.statement) (F.post self.now.statement) }
        requires room { 0 < self.now.room }
        ensures { Reads statements (spec.statement_list (nests.inner self.now.room) tokens.old) result tokens.new }
    {
        let first = self.inside(tokens)?;
        self.more(tokens, single(self.alloc, first)?)
    }

    /// A statement behind its label, from the colon on.
    #[tactic(auto, using(spl_tokens::proofs::Steps::steps), unfolding(spl_reading::specs::Readers::pure, spl_reading::specs::Readers::refuse, spl_reading::specs::Readers::followed, spl_reading::specs::Readers::and_then, spl_reading::specs::ReadStatements::labelled))]
    fn labelled(&self, tokens: &mut Tokens<'_>, token: &Token) -> Result<Stmt, Fault>
        requires nests { Nests self.now.room (F.pre self.now.statement) (F.post self.now.statement) }
        requires name { (lexeme token.now).symbol ≡ Symbol.Name }
        ensures { Reads view.statement (nests.labelled self.now.room (lexeme token.now) tokens.old) result tokens.new }
    {
        enter(tokens, self.room, 0)?;
        let body = self.boxed(tokens)?;
        Ok(labelled(name(token), token.at, body))
    }

    /// A statement that begins with a name and a parenthesis.
    #[tactic(auto, using(spl_tokens::proofs::Steps::steps), unfolding(spl_reading::specs::Readers::pure, spl_reading::specs::Readers::refuse, spl_reading::specs::Readers::followed, spl_reading::specs::Readers::and_then, spl_reading::specs::ReadStatements::with_arguments))]
    fn with_arguments(&self, tokens: &mut Tokens<'_>, token: &Token) -> Result<Stmt, Fault>
        requires name { (lexeme token.now).symbol ≡ Symbol.Name }
        ensures { Reads view.statement (nests.with_arguments self.now.room (lexeme token.now) tokens.old) result tokens.new }
    {
        let args = arguments_within(self.alloc, tokens, self.room)?;
        with_one(self.alloc, tokens, self.room, token, args)
    }

    /// A statement that begins with a name.
    #[tactic(auto, using(spl_tokens::proofs::Steps::steps), unfolding(spl_reading::specs::Readers::pure, spl_reading::specs::Readers::refuse, spl_reading::specs::Readers::followed, spl_reading::specs::Readers::and_then, spl_reading::specs::ReadStatements::named_statement))]
    fn named(&self, tokens: &mut Tokens<'_>, token: &Token) -> Result<Stmt, Fault>
        requires nests { Nests self.now.room (F.pre self.now.statement) (F.post self.now.statement) }
        requires name { (lexeme token.now).symbol ≡ Symbol.Name }
        ensures { Reads view.statement (nests.named self.now.room (lexeme token.now) tokens.old) result tokens.new }
    {
        let next = tokens.peek()?;
        if same(next, Symbol::Colon) {
            self.labelled(tokens, token)
        } else if same(next, Symbol::Open) {
            self.with_arguments(tokens, token)
        } else {
            let reference = variable(name(token), token.at);
            behind_reference(self.alloc, tokens, self.room, reference)
        }
    }

    /// An assignment to the cell of a pointer.
    #[tactic(auto, using(spl_tokens::proofs::Steps::steps), unfolding(spl_reading::specs::Readers::pure, spl_reading::specs::Readers::refuse, spl_reading::specs::Readers::followed, spl_reading::specs::Readers::and_then, spl_reading::specs::ReadStatements::address_assigned))]
    fn address_assigned(&self, tokens: &mut Tokens<'_>) -> Result<Stmt, Fault>
        ensures { Reads view.statement (nests.address_assigned self.now.room tokens.old) result tokens.new }
    {
        let at = tokens.take()?.at;
        let token = tokens.expect(Symbol::Name)?;
        assigned(
            self.alloc,
            tokens,
            self.room,
            Target::Address(name(token), at),
            at,
        )
    }

    /// Statements between BEGIN and END.
    #[tactic(auto, using(spl_tokens::proofs::Steps::steps), unfolding(spl_reading::specs::Readers::pure, spl_reading::specs::Readers::refuse, spl_reading::specs::Readers::followed, spl_reading::specs::Readers::and_then, spl_reading::specs::ReadStatements::block))]
    fn block(&self, tokens: &mut Tokens<'_>) -> Result<Stmt, Fault>
        requires nests { Nests self.now.room (F.pre self.now.statement) (F.post self.now.statement) }
        ensures { Reads view.statement (nests.block self.now.room tokens.old) result tokens.new }
    {
        enter(tokens, self.room, 0)?;
        let inside = self.list(tokens)?;
        match tokens.expect(Symbol::Word(Reserved::End)) {
            Ok(_) => Ok(block(inside)),
            Err(fault) => {
                drop(inside);
                Err(fault)
            }
        }
    }

    /// The statement inside, behind a word.
    #[tactic(auto, using(spl_tokens::proofs::Steps::steps), unfolding(spl_reading::specs::Readers::pure, spl_reading::specs::Readers::refuse, spl_reading::specs::Readers::followed, spl_reading::specs::Readers::and_then, crate::specs::Pieces::behind))]
    fn behind(&self, tokens: &mut Tokens<'_>, word: Reserved) -> Result<Box<Stmt>, Fault>
        requires nests { Nests self.now.room (F.pre self.now.statement) (F.post self.now.statement) }
        requires room { 0 < self.now.room }
        ensures { Reads parts.in_box (pieces.behind self.now.room word tokens.old) result tokens.new }
    {
        tokens.expect(Symbol::Word(word))?;
        self.boxed(tokens)
    }

    /// The statement of ELSE, where there is one.
    #[tactic(auto, using(spl_tokens::proofs::Steps::steps), unfolding(spl_reading::specs::Readers::pure, spl_reading::specs::Readers::refuse, spl_reading::specs::Readers::followed, spl_reading::specs::Readers::and_then, crate::specs::Pieces::marked))]
    fn otherwise(&self, tokens: &mut Tokens<'_>) -> Result<Option<Box<Stmt>>, Fault>
        requires nests { Nests self.now.room (F.pre self.now.statement) (F.post self.now.statement) }
        requires room { 0 < self.now.room }
        ensures { Reads parts.boxed (pieces.marked self.now.room (Symbol.Word Reserved.Else) tokens.old) result tokens.new }
    {
        if same(tokens.peek()?, Symbol::Word(Reserved::Else)) {
            tokens.take()?;
            Ok(Some(self.boxed(tokens)?))
        } else {
            Ok(None)
        }
    }

    /// An IF behind the statement of its THEN.
    #[tactic(auto, using(spl_tokens::proofs::Steps::steps, crate::proofs::PieceLemmas::else_is), unfolding(spl_reading::specs::Readers::pure, spl_reading::specs::Readers::refuse, spl_reading::specs::Readers::followed, spl_reading::specs::Readers::and_then))]
    fn else_behind(
        &self,
        tokens: &mut Tokens<'_>,
        token: &Token,
        test: Test,
        yes: Box<Stmt>,
    ) -> Result<Stmt, Fault>
        requires nests { Nests self.now.room (F.pre self.now.statement) (F.post self.now.statement) }
        requires room { 0 < self.now.room }
        ensures { Reads view.statement (nests.else_behind self.now.room (lexeme token.now) (view.test_tree test) (view.statement yes.value) tokens.old) result tokens.new }
    {
        match self.otherwise(tokens) {
            Ok(no) => Ok(if_test(test, yes, no, token.at)),
            Err(fault) => {
                drop(test);
                drop(yes);
                Err(fault)
            }
        }
    }

    /// IF.
    #[tactic(auto, using(spl_tokens::proofs::Steps::steps, crate::proofs::NestLemmas::below_is, crate::proofs::PieceLemmas::if_is), unfolding(spl_reading::specs::Readers::pure, spl_reading::specs::Readers::refuse, spl_reading::specs::Readers::followed, spl_reading::specs::Readers::and_then))]
    fn if_statement(&self, tokens: &mut Tokens<'_>) -> Result<Stmt, Fault>
        requires nests { Nests self.now.room (F.pre self.now.statement) (F.post self.now.statement) }
        ensures { Reads view.statement (nests.if_statement self.now.room tokens.old) result tokens.new }
    {
        let token = enter(tokens, self.room, 0)?;
        let test = test(self.alloc, tokens, self.room - 1)?;
        match self.behind(tokens, Reserved::Then) {
            Ok(yes) => self.else_behind(tokens, token, test, yes),
            Err(fault) => {
                drop(test);
                Err(fault)
            }
        }
    }

    /// WHILE.
    #[tactic(auto, using(spl_tokens::proofs::Steps::steps, crate::proofs::NestLemmas::below_is, crate::proofs::PieceLemmas::while_is), unfolding(spl_reading::specs::Readers::pure, spl_reading::specs::Readers::refuse, spl_reading::specs::Readers::followed, spl_reading::specs::Readers::and_then))]
    fn while_statement(&self, tokens: &mut Tokens<'_>) -> Result<Stmt, Fault>
        requires nests { Nests self.now.room (F.pre self.now.statement) (F.post self.now.statement) }
        ensures { Reads view.statement (nests.while_statement self.now.room tokens.old) result tokens.new }
    {
        let at = enter(tokens, self.room, 0)?.at;
        let test = condition_within(self.alloc, tokens, self.room - 1)?;
        match self.behind(tokens, Reserved::Do) {
            Ok(body) => Ok(while_true(test, body, at)),
            Err(fault) => {
                drop(test);
                Err(fault)
            }
        }
    }

    /// DO and UNTIL.
    #[tactic(auto, using(spl_tokens::proofs::Steps::steps, crate::proofs::NestLemmas::below_is, crate::proofs::PieceLemmas::do_is), unfolding(spl_reading::specs::Readers::pure, spl_reading::specs::Readers::refuse, spl_reading::specs::Readers::followed, spl_reading::specs::Readers::and_then))]
    fn do_statement(&self, tokens: &mut Tokens<'_>) -> Result<Stmt, Fault>
        requires nests { Nests self.now.room (F.pre self.now.statement) (F.post self.now.statement) }
        ensures { Reads view.statement (nests.do_statement self.now.room tokens.old) result tokens.new }
    {
        let at = enter(tokens, self.room, 0)?.at;
        let body = self.boxed(tokens)?;
        match until_condition(self.alloc, tokens, self.room - 1) {
            Ok(test) => Ok(until_true(body, test, at)),
            Err(fault) => {
                drop(body);
                Err(fault)
            }
        }
    }

    /// FOR.
    #[tactic(auto, using(spl_tokens::proofs::Steps::steps, crate::proofs::NestLemmas::below_is, crate::proofs::PieceLemmas::for_is), unfolding(spl_reading::specs::Readers::pure, spl_reading::specs::Readers::refuse, spl_reading::specs::Readers::followed, spl_reading::specs::Readers::and_then))]
    fn for_statement(&self, tokens: &mut Tokens<'_>) -> Result<Stmt, Fault>
        requires nests { Nests self.now.room (F.pre self.now.statement) (F.post self.now.statement) }
        ensures { Reads view.statement (nests.for_statement self.now.room tokens.old) result tokens.new }
    {
        let at = enter(tokens, self.room, 0)?.at;
        let token = tokens.expect(Symbol::Name)?;
        tokens.expect(Symbol::Assign)?;
        let values = values(self.alloc, tokens, self.room - 1)?;
        match self.behind(tokens, Reserved::Do) {
            Ok(body) => Ok(for_values(name(token), values, body, at)),
            Err(fault) => {
                drop(values);
                Err(fault)
            }
        }
    }

    /// What a CASE chooses from, between BEGIN and END.
    #[tactic(auto, using(spl_tokens::proofs::Steps::steps), unfolding(spl_reading::specs::Readers::pure, spl_reading::specs::Readers::refuse, spl_reading::specs::Readers::followed, spl_reading::specs::Readers::and_then, crate::specs::Pieces::arms))]
    fn arms(&self, tokens: &mut Tokens<'_>) -> Result<Vec<Stmt>, Fault>
        requires nests { Nests self.now.room (F.pre self.now.statement) (F.post self.now.statement) }
        requires room { 0 < self.now.room }
        ensures { Reads statements (pieces.arms self.now.room tokens.old) result tokens.new }
    {
        tokens.expect(Symbol::Word(Reserved::Of))?;
        tokens.expect(Symbol::Word(Reserved::Begin))?;
        let arms = self.list(tokens)?;
        match tokens.expect(Symbol::Word(Reserved::End)) {
            Ok(_) => Ok(arms),
            Err(fault) => {
                drop(arms);
                Err(fault)
            }
        }
    }

    /// CASE.
    #[tactic(auto, using(spl_tokens::proofs::Steps::steps, crate::proofs::NestLemmas::below_is, crate::proofs::PieceLemmas::case_is), unfolding(spl_reading::specs::Readers::pure, spl_reading::specs::Readers::refuse, spl_reading::specs::Readers::followed, spl_reading::specs::Readers::and_then))]
    fn case_statement(&self, tokens: &mut Tokens<'_>) -> Result<Stmt, Fault>
        requires nests { Nests self.now.room (F.pre self.now.statement) (F.post self.now.statement) }
        ensures { Reads view.statement (nests.case_statement self.now.room tokens.old) result tokens.new }
    {
        let at = enter(tokens, self.room, 0)?.at;
        let of = expression_within(self.alloc, tokens, self.room - 1)?;
        match self.arms(tokens) {
            Ok(arms) => Ok(case_of(of, arms, at)),
            Err(fault) => {
                drop(of);
                Err(fault)
            }
        }
    }

    /// GO or GO TO.
    #[tactic(auto, using(spl_tokens::proofs::Steps::steps), unfolding(spl_reading::specs::Readers::pure, spl_reading::specs::Readers::refuse, spl_reading::specs::Readers::followed, spl_reading::specs::Readers::and_then, spl_reading::specs::ReadStatements::go_statement))]
    fn go_statement(&self, tokens: &mut Tokens<'_>) -> Result<Stmt, Fault>
        ensures { Reads view.statement (nests.go_statement self.now.room tokens.old) result tokens.new }
    {
        let go = tokens.take()?;
        if same(tokens.peek()?, Symbol::Word(Reserved::To)) {
            tokens.take()?;
        }
        go_name(tokens, go)
    }

    /// A MOVE or a SCAN whose value is dropped.
    #[tactic(auto, using(spl_tokens::proofs::Steps::steps), unfolding(spl_reading::specs::Readers::pure, spl_reading::specs::Readers::refuse, spl_reading::specs::Readers::followed, spl_reading::specs::Readers::and_then, spl_reading::specs::ReadStatements::effect_statement))]
    fn effect_statement(&self, tokens: &mut Tokens<'_>) -> Result<Stmt, Fault>
        ensures { Reads view.statement (nests.effect_statement self.now.room tokens.old) result tokens.new }
    {
        let at = tokens.place()?;
        let effect = effect(self.alloc, tokens, self.room)?;
        Ok(done(effect, at))
    }

    /// A statement by its reserved word; any other word stands behind an empty one.
    #[tactic(auto, using(spl_tokens::proofs::Steps::steps), unfolding(spl_reading::specs::Readers::pure, spl_reading::specs::Readers::refuse, spl_reading::specs::Readers::followed, spl_reading::specs::Readers::and_then, spl_reading::specs::ReadStatements::by_word))]
    fn by_word(&self, tokens: &mut Tokens<'_>, word: Reserved) -> Result<Stmt, Fault>
        requires nests { Nests self.now.room (F.pre self.now.statement) (F.post self.now.statement) }
        ensures { Reads view.statement (nests.by_word self.now.room word tokens.old) result tokens.new }
    {
        match word {
            Reserved::Begin => self.block(tokens),
            Reserved::If => self.if_statement(tokens),
            Reserved::While => self.while_statement(tokens),
            Reserved::Do => self.do_statement(tokens),
            Reserved::For => self.for_statement(tokens),
            Reserved::Case => self.case_statement(tokens),
            Reserved::Go => self.go_statement(tokens),
            Reserved::Goto => {
                let go = tokens.take()?;
                go_name(tokens, go)
            }
            Reserved::Return => Ok(returned(tokens.take()?.at)),
            Reserved::Move => self.effect_statement(tokens),
            Reserved::Scan => self.effect_statement(tokens),
            _ => Ok(empty()),
        }
    }

    /// A statement.
    #[tactic(auto, using(spl_tokens::proofs::Steps::steps), unfolding(spl_reading::specs::Readers::pure, spl_reading::specs::Readers::refuse, spl_reading::specs::Readers::followed, spl_reading::specs::Readers::and_then, spl_reading::specs::ReadStatements::statement_step, spl_reading::specs::ReadStatements::statement_by))]
    fn read(&self, tokens: &mut Tokens<'_>) -> Result<Stmt, Fault>
        requires nests { Nests self.now.room (F.pre self.now.statement) (F.post self.now.statement) }
        ensures { Reads view.statement (nests.read self.now.room tokens.old) result tokens.new }
    {
        match tokens.peek()? {
            Symbol::Name => {
                let token = tokens.take()?;
                self.named(tokens, token)
            }
            Symbol::AtSign => self.address_assigned(tokens),
            Symbol::Word(word) => self.by_word(tokens, word),
            _ => Ok(empty()),
        }
    }
}

/// A statement, where so many constructs may be opened.
pub fn statement(alloc: Global, tokens: &mut Tokens<'_>, room: u8) -> Result<Stmt, Fault>
    ensures { Reads view.statement (spec.statement room tokens.old) result tokens.new }
{
    Statements {
        alloc,
        room,
        statement,
    }
    .read(tokens)
}

/// Statements, where so many constructs may be opened.
pub fn statement_list(alloc: Global, tokens: &mut Tokens<'_>, room: u8) -> Result<Vec<Stmt>, Fault>
    requires { room < 255 }
    ensures { Reads statements (spec.statement_list (spec.statement room) tokens.old) result tokens.new }
{
    Statements {
        alloc,
        room: room + 1,
        statement,
    }
    .list(tokens)
}
