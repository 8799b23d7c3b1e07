//! Reading statements.

ghost use Rattle.std.specs.Prelude.{◌≡◌, ◌+◌, bytes_eq, length, map, option_map, IsTrue};
ghost use Rattle.author_text.specs.PrintedSource.{plain_text};
ghost use Rattle.author_text.specs.ReadExprs.{read_expr};
ghost use Rattle.author_text.specs.ReadStmts.{ends_block, is_else_if, no_block, no_stmt, only_log, plain_among, plain_in, read_block, read_change, read_choice};
ghost use Rattle.author_text.specs.ReadStmts.{read_copied, read_cut, read_decimal, read_drop, read_emit, read_keep, read_let, read_log, read_number_or_part};
ghost use Rattle.author_text.specs.ReadStmts.{read_other, read_plain, read_run, read_set, read_set_or_run, read_spoken, read_stmt, read_thing, read_walk, read_worded};
ghost use Rattle.author_text.specs.ReadTexts.{read_items, read_list, read_listed};
ghost use Rattle.author_text.specs.Reading.{ReadsTokens, ReadsAs, unread_of};
ghost use Rattle.author_text.specs.Trees.{body_of, choice, expr_of, name_of, names_of, plain, repeat, stmt_of, thing_of, walk};
ghost use Rattle.author_text.specs.UnreadTokens.{refused};

use crate::parser::Parser;
use crate::place::Place;
use crate::source::{Expr, Name, Plain, SetOp, Stmt, Thing};
use crate::token::{Kind, Token};

/// How many calls of the functions below are in one another at most: four for each block, and one for each `else if`.
pub const MAX_DEPTH: usize = 512;

/// The statements that are one word.
const PLAIN: [Plain; 8] = [
    Plain::Flush,
    Plain::Pass,
    Plain::End,
    Plain::Fail,
    Plain::Leave,
    Plain::Next,
    Plain::Break,
    Plain::Continue,
];

/// How a statement that is one word is written.
pub fn plain_text(plain: Plain) -> &'static str
    ensures { result.now ≡ plain_text plain }
{
    match plain {
        Plain::Flush => "flush",
        Plain::Pass => "pass",
        Plain::End => "end",
        Plain::Fail => "fail",
        Plain::Leave => "leave",
        Plain::Next => "next",
        Plain::Break => "break",
        Plain::Continue => "continue",
    }
}

#[tactic(auto, unfolding(crate::specs::ReadStmts::plain_in))]
fn plain_of(text: &[u8]) -> Option<Plain>
    ensures { result ≡ plain_in text.now }
{
    plain_among(text, &PLAIN)
}

/// The first of these statements that is this word.
fn plain_among(text: &[u8], plains: &[Plain]) -> Option<Plain>
    ensures { result ≡ plain_among text.now plains.now }
{
    for plain in plains {
        if plain_text(*plain).as_bytes() == text {
            return Some(*plain);
        }
    }
    None
}

/// Whether a name is written for `else if` elsewhere.
fn is_else_if(name: &[u8]) -> bool
    ensures { result ≡ is_else_if name.now }
{
    name == b"elif".as_slice() || name == b"elsif".as_slice() || name == b"elseif".as_slice()
}

/// What stands in for a statement, once there is a fault.
fn none<'a>(place: Place) -> Stmt<'a>
    ensures { stmt_of result ≡ plain Plain.Fail }
{
    Stmt::Plain {
        word: Plain::Fail,
        place,
    }
}

fn choice<'a>(test: Expr<'a>, then: Vec<Stmt<'a>>, other: Vec<Stmt<'a>>, place: Place) -> Stmt<'a>
    ensures { stmt_of result ≡ choice (expr_of test.entry) (body_of (map stmt_of then.entry.items)) (body_of (map stmt_of other.entry.items)) }
{
    Stmt::If {
        test,
        then,
        other,
        place,
    }
}

fn repeat<'a>(test: Option<Expr<'a>>, body: Vec<Stmt<'a>>, place: Place) -> Stmt<'a>
    ensures { stmt_of result ≡ repeat (option_map expr_of test.entry) (body_of (map stmt_of body.entry.items)) }
{
    Stmt::While { test, body, place }
}

fn walk<'a>(
    byte: Name<'a>,
    index: Option<Name<'a>>,
    over: Option<Name<'a>>,
    body: Vec<Stmt<'a>>,
    place: Place,
) -> Stmt<'a>
    ensures { stmt_of result ≡ walk (name_of byte.entry) (names_of index.entry) (names_of over.entry) (body_of (map stmt_of body.entry.items)) }
{
    Stmt::For {
        byte,
        index,
        over,
        body,
        place,
    }
}

fn is(word: Token<'_>, text: &str) -> bool
    ensures { result ≡ bytes_eq word.entry.text.now text.now }
{
    word.text == text.as_bytes()
}

impl<'a, 't> Parser<'a, 't> {
    /// Statements in brackets.
    #[cycle(stmts)]
    #[tactic(auto, using(crate::proofs::ReadStmtSteps::block_none, crate::proofs::ReadStmtSteps::block_step))]
    pub fn block(&mut self, depth: usize) -> Vec<Stmt<'a>>
        ensures { ReadsAs self.old self.new (map stmt_of result.items) (read_block depth (unread_of self.old)) }
    {
        if depth == 0 {
            self.too_deep();
            return Vec::new(self.alloc);
        }
        let open = self.token().place;
        self.need("{");
        let body = self.block_items(depth - 1);
        if !self.eat("}") {
            self.says_at(open, "this `{` is not closed");
        }
        body
    }

    /// The statements up to a closing bracket.
    #[cycle(stmts)]
    fn block_items(&mut self, depth: usize) -> Vec<Stmt<'a>>
        ensures { ReadsAs self.old self.new (map stmt_of result.items) (read_items ends_block (read_stmt depth) (length (unread_of self.old).tokens + 1) (unread_of self.old)) }
    {
        let mut body = Vec::new(self.alloc);
        let count = self.left();
        for _ in 0..count {
            if self.ends_block() {
                break;
            }
            let stmt = self.stmt(depth);
            self.append(&mut body, stmt);
        }
        body
    }

    /// Whether no statement of the block is left.
    fn ends_block(&self) -> bool
        ensures { IsTrue self.now.faults.is_whole → result ≡ ends_block (unread_of self.now) }
    {
        self.at("}") || self.is_end()
    }

    #[cycle(stmts)]
    #[tactic(auto, using(crate::proofs::ReadStmtSteps::stmt_none, crate::proofs::ReadStmtSteps::stmt_step))]
    fn stmt(&mut self, depth: usize) -> Stmt<'a>
        ensures { ReadsAs self.old self.new (stmt_of result) (read_stmt depth (unread_of self.old)) }
    {
        let token = self.token();
        if depth == 0 {
            self.too_deep();
            return none(token.place);
        }
        match token.kind {
            Kind::Name => self.set_or_run(),
            Kind::Word => {
                self.take();
                self.worded(token, depth - 1)
            }
            _ => {
                self.due("a statement");
                none(token.place)
            }
        }
    }

    /// The rest of a statement that begins with a word of the language.
    #[cycle(stmts)]
    #[tactic(auto, using(crate::proofs::ReadStmtSteps::worded_none, crate::proofs::ReadStmtSteps::worded_step))]
    fn worded(&mut self, word: Token<'a>, depth: usize) -> Stmt<'a>
        ensures { ReadsAs self.old self.new (stmt_of result) (read_worded depth word.entry.text.now (unread_of self.old)) }
    {
        let place = word.place;
        if depth == 0 {
            self.too_deep();
            return none(place);
        }
        if is(word, "if") {
            return self.choice(place, depth - 1);
        }
        if is(word, "for") {
            return self.walk(place, depth - 1);
        }
        if is(word, "while") {
            let test = Some(self.expr());
            return repeat(test, self.block(depth - 1), place);
        }
        if is(word, "loop") {
            return repeat(None, self.block(depth - 1), place);
        }
        self.plain(word)
    }

    /// What follows `if`.
    #[cycle(stmts)]
    #[tactic(auto, using(crate::proofs::ReadStmtSteps::choice_none, crate::proofs::ReadStmtSteps::choice_step))]
    fn choice(&mut self, place: Place, depth: usize) -> Stmt<'a>
        ensures { ReadsAs self.old self.new (stmt_of result) (read_choice depth (unread_of self.old)) }
    {
        if depth == 0 {
            self.too_deep();
            return none(place);
        }
        let test = self.expr();
        let then = self.block(depth - 1);
        let other = self.other(depth - 1);
        choice(test, then, other, place)
    }

    /// What follows the first block of an `if`.
    #[cycle(stmts)]
    fn other(&mut self, depth: usize) -> Vec<Stmt<'a>>
        ensures { ReadsAs self.old self.new (map stmt_of result.items) (read_other (read_choice depth) (read_block depth) (unread_of self.old)) }
    {
        let mut other = Vec::new(self.alloc);
        if !self.eat("else") {
            return other;
        }
        let inner = self.token().place;
        if !self.eat("if") {
            return self.block(depth);
        }
        let choice = self.choice(inner, depth);
        self.append(&mut other, choice);
        other
    }

    /// What follows `for`.
    #[cycle(stmts)]
    #[tactic(auto, using(crate::proofs::ReadStmtSteps::walk_none, crate::proofs::ReadStmtSteps::walk_step))]
    fn walk(&mut self, place: Place, depth: usize) -> Stmt<'a>
        ensures { ReadsAs self.old self.new (stmt_of result) (read_walk depth (unread_of self.old)) }
    {
        if depth == 0 {
            self.too_deep();
            return none(place);
        }
        self.need("byte");
        let byte = self.name("a name for the byte");
        let index = self.name_behind("at", "a name for the place");
        self.need("in");
        let over = self.hold_or_it();
        let body = self.block(depth - 1);
        walk(byte, index, over, body, place)
    }

    /// A statement that begins with a name.
    #[tactic(auto, unfolding(crate::specs::ReadStmts::read_set_or_run))]
    fn set_or_run(&mut self) -> Stmt<'a>
        ensures { ReadsAs self.old self.new (stmt_of result) (read_set_or_run (unread_of self.old)) }
    {
        let name = self.name("a name");
        if self.eat("(") {
            return self.run(name);
        }
        self.change(name)
    }

    /// What follows a name and a bracket.
    #[tactic(auto, unfolding(crate::specs::ReadStmts::read_run))]
    fn run(&mut self, name: Name<'a>) -> Stmt<'a>
        ensures { ReadsAs self.old self.new (stmt_of result) (read_run (name_of name.entry) (unread_of self.old)) }
    {
        let args = self.args();
        self.check_block(name);
        Stmt::Run { name, args }
    }

    /// What follows the name of a number.
    #[tactic(auto, unfolding(crate::specs::ReadStmts::read_change))]
    fn change(&mut self, name: Name<'a>) -> Stmt<'a>
        ensures { ReadsAs self.old self.new (stmt_of result) (read_change (name_of name.entry) (unread_of self.old)) }
    {
        if self.eat("=") {
            return self.set(name, SetOp::Becomes);
        }
        if self.eat("+=") {
            return self.set(name, SetOp::Add);
        }
        if self.eat("-=") {
            return self.set(name, SetOp::Sub);
        }
        self.no_change(name)
    }

    #[tactic(auto, unfolding(crate::specs::ReadStmts::read_set))]
    fn set(&mut self, name: Name<'a>, op: SetOp) -> Stmt<'a>
        ensures { ReadsAs self.old self.new (stmt_of result) (read_set (name_of name.entry) op (unread_of self.old)) }
    {
        let value = self.expr();
        Stmt::Set { name, op, value }
    }

    /// Refuses a block behind a name that is written for `else if` elsewhere.
    fn check_block(&mut self, name: Name<'a>)
        ensures { ReadsTokens self.old self.new (unread_of self.new ≡ no_block (name_of name.entry) (unread_of self.old)) }
    {
        if self.at("{") && is_else_if(name.text) {
            self.says_at(name.place, "write `else if`");
        }
    }

    /// What is wrong behind a name with which nothing is done.
    fn no_change(&mut self, name: Name<'a>) -> Stmt<'a>
        ensures { ReadsAs self.old self.new (stmt_of result) (no_stmt (unread_of self.old)) }
    {
        let place = self.token().place;
        if is_else_if(name.text) {
            self.says_at(name.place, "write `else if`");
        }
        self.check_step(name, place);
        let before = "`=`, `+=`, `-=` or `(` is due after `";
        self.says_word(place, &[before], name.text, "`");
        none(place)
    }

    /// Refuses `++` and `--` at this place behind a name.
    fn check_step(&mut self, name: Name<'a>, place: Place)
        ensures { ReadsTokens self.old self.new ((unread_of self.new).operators ≡ (unread_of self.old).operators) }
    {
        if self.eat("+") && self.at("+") {
            self.says_word(place, &["write `"], name.text, " += 1`");
        }
        if self.eat("-") && self.at("-") {
            self.says_word(place, &["write `"], name.text, " -= 1`");
        }
    }

    /// What stands between the brackets behind a name.
    #[tactic(auto, unfolding(crate::specs::ReadTexts::read_list))]
    fn args(&mut self) -> Vec<Expr<'a>>
        ensures { ReadsAs self.old self.new (map expr_of result.items) (read_list read_expr (unread_of self.old)) }
    {
        let args = self.arg_items();
        self.need(")");
        args
    }

    /// Numbers with commas between them, up to a closing bracket.
    fn arg_items(&mut self) -> Vec<Expr<'a>>
        ensures { ReadsAs self.old self.new (map expr_of result.items)
            (read_listed read_expr (length (unread_of self.old).tokens + 1) (unread_of self.old)) }
    {
        let mut args = Vec::new(self.alloc);
        let count = self.left();
        for _ in 0..count {
            if self.at(")") {
                break;
            }
            let arg = self.expr();
            self.append(&mut args, arg);
            if !self.eat(",") {
                break;
            }
        }
        args
    }

    /// The rest of a statement without a block.
    #[tactic(auto, unfolding(crate::specs::ReadStmts::read_plain))]
    fn plain(&mut self, word: Token<'a>) -> Stmt<'a>
        ensures { ReadsAs self.old self.new (stmt_of result) (read_plain word.entry.text.now (unread_of self.old)) }
    {
        let place = word.place;
        match plain_of(word.text) {
            Some(word) => Stmt::Plain { word, place },
            None => self.spoken(word),
        }
    }

    /// The rest of a statement without a block that has more than one word.
    #[tactic(auto, unfolding(crate::specs::ReadStmts::read_spoken))]
    fn spoken(&mut self, word: Token<'a>) -> Stmt<'a>
        ensures { ReadsAs self.old self.new (stmt_of result) (read_spoken word.entry.text.now (unread_of self.old)) }
    {
        if is(word, "let") {
            return self.define();
        }
        if is(word, "emit") {
            return self.emit(word.place);
        }
        if is(word, "keep") {
            return self.keep(word.place);
        }
        if is(word, "drop") {
            return self.discard(word.place);
        }
        if is(word, "cut") {
            return self.cut(word.place);
        }
        self.log(word)
    }

    /// What follows `let`.
    #[tactic(auto, unfolding(crate::specs::ReadStmts::read_let))]
    fn define(&mut self) -> Stmt<'a>
        ensures { ReadsAs self.old self.new (stmt_of result) (read_let (unread_of self.old)) }
    {
        let name = self.name_is();
        let value = self.expr();
        Stmt::Let { name, value }
    }

    /// What follows `emit`.
    #[tactic(auto, unfolding(crate::specs::ReadStmts::read_emit))]
    fn emit(&mut self, place: Place) -> Stmt<'a>
        ensures { ReadsAs self.old self.new (stmt_of result) (read_emit (unread_of self.old)) }
    {
        let thing = self.thing();
        let to = None;
        Stmt::Put { thing, to, place }
    }

    /// What follows `keep`.
    #[tactic(auto, unfolding(crate::specs::ReadStmts::read_keep))]
    fn keep(&mut self, place: Place) -> Stmt<'a>
        ensures { ReadsAs self.old self.new (stmt_of result) (read_keep (unread_of self.old)) }
    {
        let thing = self.thing();
        self.need("in");
        let to = Some(self.name("the name of a hold"));
        Stmt::Put { thing, to, place }
    }

    /// What follows `drop`.
    #[tactic(auto, unfolding(crate::specs::ReadStmts::read_drop))]
    fn discard(&mut self, place: Place) -> Stmt<'a>
        ensures { ReadsAs self.old self.new (stmt_of result) (read_drop (unread_of self.old)) }
    {
        let of = self.hold_or_it();
        Stmt::Drop { of, place }
    }

    /// What follows `cut`.
    #[tactic(auto, unfolding(crate::specs::ReadStmts::read_cut))]
    fn cut(&mut self, place: Place) -> Stmt<'a>
        ensures { ReadsAs self.old self.new (stmt_of result) (read_cut (unread_of self.old)) }
    {
        self.need("it");
        self.need("at");
        let at = self.expr();
        Stmt::Cut { at, place }
    }

    /// The rest of `log`.
    #[tactic(auto, unfolding(crate::specs::ReadStmts::read_log))]
    fn log(&mut self, word: Token<'a>) -> Stmt<'a>
        ensures { ReadsAs self.old self.new (stmt_of result) (read_log word.entry.text.now (unread_of self.old)) }
    {
        let place = word.place;
        self.check_log(word);
        let is_conn = self.eat("conn");
        let text = self.text();
        Stmt::Log {
            is_conn,
            text,
            place,
        }
    }

    /// Refuses a word that begins no statement.
    fn check_log(&mut self, word: Token<'a>)
        ensures { ReadsTokens self.old self.new (unread_of self.new ≡ only_log word.entry.text.now (unread_of self.old)) }
    {
        if !is(word, "log") {
            self.no_stmt(word);
        }
    }

    /// No statement begins with this word.
    fn no_stmt(&mut self, word: Token<'a>)
        ensures { ReadsTokens self.old self.new (unread_of self.new ≡ refused (unread_of self.old)) }
    {
        if is(word, "return") {
            self.says_at(word.place, "`return` begins no statement: write `next`");
        }
        let before = "a statement is due here; `";
        self.says_word(word.place, &[before], word.text, "` begins none");
    }

    /// What is emitted or kept.
    #[tactic(auto, unfolding(crate::specs::ReadStmts::read_thing))]
    fn thing(&mut self) -> Thing<'a>
        ensures { ReadsAs self.old self.new (thing_of result) (read_thing (unread_of self.old)) }
    {
        let place = self.token().place;
        if self.is_text() {
            return Thing::Text(self.text());
        }
        if self.eat("it") {
            let is_copy = false;
            return Thing::It { is_copy, place };
        }
        if self.eat("copy") {
            return self.copied(place);
        }
        if self.eat("decimal") {
            return self.decimal();
        }
        self.number_or_part(place)
    }

    /// What follows `copy`.
    #[tactic(auto, unfolding(crate::specs::ReadStmts::read_copied))]
    fn copied(&mut self, place: Place) -> Thing<'a>
        ensures { ReadsAs self.old self.new (thing_of result) (read_copied (unread_of self.old)) }
    {
        match self.hold_or_it() {
            None => Thing::It {
                is_copy: true,
                place,
            },
            Some(hold) => Thing::Copy(hold),
        }
    }

    /// What follows `decimal`.
    #[tactic(auto, unfolding(crate::specs::ReadStmts::read_decimal))]
    fn decimal(&mut self) -> Thing<'a>
        ensures { ReadsAs self.old self.new (thing_of result) (read_decimal (unread_of self.old)) }
    {
        self.need("(");
        let value = self.expr();
        self.need(")");
        Thing::Decimal { value }
    }

    /// A number, or the front of a hold that has so many bytes.
    #[tactic(auto, unfolding(crate::specs::ReadStmts::read_number_or_part))]
    fn number_or_part(&mut self, place: Place) -> Thing<'a>
        ensures { ReadsAs self.old self.new (thing_of result) (read_number_or_part (unread_of self.old)) }
    {
        let value = self.expr();
        if self.eat("of") {
            let hold = self.name("the name of a hold");
            return Thing::Part { size: value, hold };
        }
        Thing::Number { value, place }
    }
}
