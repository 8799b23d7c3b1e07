//! Reading numbers and conditions.

ghost use Rattle.std.specs.Prelude.{◌≡◌, ◌++◌, IsTrue, List};
ghost use Rattle.author_text.specs.Limits.{FitsExpr};
ghost use Rattle.author_text.specs.ReadExprs.{counted, no_expr, operator_among, operator_in, read_asked, read_chain, read_expr, read_hold_behind, read_inner};
ghost use Rattle.author_text.specs.ReadExprs.{read_named, read_operand, read_unit, StopsExpr, unchained};
ghost use Rattle.author_text.specs.Reading.{ReadsTokens, ReadsAs, unread_of};
ghost use Rattle.author_text.specs.Trees.{ExprTree, expr_of, name_of, names_of, number, variable, size, empty, has, look, negation, binary};
ghost use Rattle.author_text.specs.Tokens.{TokenTree, expr_tokens};
ghost use Rattle.author_text.specs.UnreadTokens.{next_token, tokens_at};

use crate::operators::{Level, OPERATORS, closer, operator_level, operator_text, rank};
use crate::parser::Parser;
use crate::place::Place;
use crate::source::{BinaryOp, Expr, Name};
use crate::token::Kind;

/// How many operators an expression has at most.
pub const MAX_OPERATORS: usize = 250;

/// How many calls of the functions below are in one another at most: some eleven for each pair of brackets.
const MAX_DEPTH: usize = 1000;

/// What stands in for an expression, once there is a fault.
fn none<'a>(place: Place) -> Expr<'a>
    ensures { expr_of result ≡ number 0 }
{
    Expr::Number { value: 0, place }
}

fn number_at<'a>(value: u32, place: Place) -> Expr<'a>
    ensures { expr_of result ≡ number value }
{
    Expr::Number { value, place }
}

fn variable<'a>(name: Name<'a>) -> Expr<'a>
    ensures { expr_of result ≡ variable (name_of name.entry) }
{
    Expr::Name(name)
}

fn size_of<'a>(of: Option<Name<'a>>, place: Place) -> Expr<'a>
    ensures { expr_of result ≡ size (names_of of.entry) }
{
    Expr::Size { of, place }
}

fn empty_of<'a>(hold: Name<'a>, place: Place) -> Expr<'a>
    ensures { expr_of result ≡ empty (name_of hold.entry) }
{
    Expr::Empty { hold, place }
}

impl<'a, 't> Parser<'a, 't> {
    /// A number or a condition. The tokens of an expression that fits, with nothing behind them that goes on with it, are read as it.
    #[tactic(auto, unfolding(crate::specs::ReadExprs::read_expr, crate::specs::Reading::unread_of))]
    pub fn expr(&mut self) -> Expr<'a>
        ensures read { ReadsAs self.old self.new (expr_of result) (read_expr (unread_of self.old)) }
        ensures again { (e : ExprTree) (ts : List TokenTree) → FitsExpr e → StopsExpr Level.Or ts → unread_of self.old ≡ tokens_at (expr_tokens e ++ ts) 0
            → ReadsTokens self.old self.new ((expr_of result ≡ e) × (unread_of self.new ≡ tokens_at ts 0)) }
    {
        let expr = self.chain(Level::Or, MAX_DEPTH);
        self.operators = 0;
        expr
    }

    /// The operator of this level that is next.
    #[tactic(auto, unfolding(crate::specs::ReadExprs::operator_in))]
    fn operator(&self, level: Level) -> Option<BinaryOp>
        ensures { IsTrue self.now.faults.is_whole → result ≡ operator_in level (next_token (unread_of self.now)) }
    {
        self.operator_among(level, &OPERATORS)
    }

    /// The first of these operators that is of this level and is next.
    fn operator_among(&self, level: Level, ops: &[BinaryOp]) -> Option<BinaryOp>
        ensures { IsTrue self.now.faults.is_whole → result ≡ operator_among level (next_token (unread_of self.now)) ops.now }
    {
        for op in ops {
            if rank(operator_level(*op)) == rank(level) && self.at(operator_text(*op)) {
                return Some(*op);
            }
        }
        None
    }

    #[tactic(auto, unfolding(crate::specs::Reading::unread_of))]
    fn count_operator(&mut self)
        ensures { ReadsTokens self.old self.new (unread_of self.new ≡ counted (unread_of self.old)) }
    {
        if MAX_OPERATORS <= self.operators {
            self.says("this expression is too long");
        } else {
            self.operators += 1;
        }
    }

    fn check_unchained(&mut self, level: Level)
        ensures { ReadsTokens self.old self.new (unread_of self.new ≡ unchained level (unread_of self.old)) }
    {
        if level == Level::Compare && self.operator(level).is_some() {
            self.says("comparisons are not chained: write `a < b and b < c`");
        }
    }

    fn binary(&mut self, op: BinaryOp, left: Expr<'a>, right: Expr<'a>, place: Place) -> Expr<'a>
        ensures { ReadsTokens self.old self.new ((expr_of result ≡ binary op (expr_of left.entry) (expr_of right.entry)) × (unread_of self.new ≡ unread_of self.old)) }
    {
        match (self.faults.boxed(left), self.faults.boxed(right)) {
            (Some(left), Some(right)) => Expr::Binary {
                op,
                left,
                right,
                place,
            },
            _ => none(place),
        }
    }

    fn negation(&mut self, of: Expr<'a>, place: Place) -> Expr<'a>
        ensures { ReadsTokens self.old self.new ((expr_of result ≡ negation (expr_of of.entry)) × (unread_of self.new ≡ unread_of self.old)) }
    {
        match self.faults.boxed(of) {
            Some(of) => Expr::Not { of, place },
            None => none(place),
        }
    }

    fn look(&mut self, table: Name<'a>, index: Expr<'a>) -> Expr<'a>
        ensures { ReadsTokens self.old self.new ((expr_of result ≡ look (name_of table.entry) (expr_of index.entry)) × (unread_of self.new ≡ unread_of self.old)) }
    {
        match self.faults.boxed(index) {
            Some(index) => Expr::Look { table, index },
            None => none(table.place),
        }
    }

    fn has(&mut self, hold: Name<'a>, size: Expr<'a>, place: Place) -> Expr<'a>
        ensures { ReadsTokens self.old self.new ((expr_of result ≡ has (name_of hold.entry) (expr_of size.entry)) × (unread_of self.new ≡ unread_of self.old)) }
    {
        match self.faults.boxed(size) {
            Some(size) => Expr::Has { hold, size, place },
            None => none(place),
        }
    }

    /// There is no number here, but what is said.
    fn no_number(&mut self, what: &str) -> Expr<'a>
        ensures { ReadsAs self.old self.new (expr_of result) (no_expr (unread_of self.old)) }
    {
        self.says(what);
        none(self.token().place)
    }

    /// There is no number here, but a mark that begins none, or the end.
    fn no_operand(&mut self) -> Expr<'a>
        ensures { ReadsAs self.old self.new (expr_of result) (no_expr (unread_of self.old)) }
    {
        if self.at("+") {
            return self.no_number("a number is due here, not `+`; `n++` is the statement `n += 1`");
        }
        self.due("a number");
        none(self.token().place)
    }

    /// Operands of one level, with the operators between them.
    #[cycle(exprs)]
    #[tactic(auto, using(crate::proofs::ReadExprSteps::chain_none, crate::proofs::ReadExprSteps::chain_step))]
    fn chain(&mut self, level: Level, depth: usize) -> Expr<'a>
        ensures { ReadsAs self.old self.new (expr_of result) (read_chain depth level (unread_of self.old)) }
    {
        if depth == 0 {
            return self.no_number("too much stands in one another here");
        }
        let below = depth - 1;
        let mut left = self.operand(level, below);
        let count = self.left();
        for _ in 0..count {
            let Some(op) = self.operator(level) else {
                break;
            };
            self.count_operator();
            let place = self.take().place;
            let right = self.operand(level, below);
            left = self.binary(op, left, right, place);
            self.check_unchained(level);
        }
        left
    }

    #[cycle(exprs)]
    #[tactic(auto, using(crate::proofs::ReadExprSteps::operand_none, crate::proofs::ReadExprSteps::operand_step))]
    fn operand(&mut self, level: Level, depth: usize) -> Expr<'a>
        ensures { ReadsAs self.old self.new (expr_of result) (read_operand depth level (unread_of self.old)) }
    {
        if depth == 0 {
            return self.no_number("too much stands in one another here");
        }
        if level == Level::Product {
            return self.unit(depth - 1);
        }
        if level == Level::Compare && self.at("not") {
            let place = self.take().place;
            let of = self.chain(level, depth - 1);
            return self.negation(of, place);
        }
        self.chain(closer(level), depth - 1)
    }

    /// A number, a name, or what stands in brackets.
    #[cycle(exprs)]
    #[tactic(auto, using(crate::proofs::ReadExprSteps::unit_none, crate::proofs::ReadExprSteps::unit_step))]
    fn unit(&mut self, depth: usize) -> Expr<'a>
        ensures { ReadsAs self.old self.new (expr_of result) (read_unit depth (unread_of self.old)) }
    {
        if depth == 0 {
            return self.no_number("too much stands in one another here");
        }
        let token = self.token();
        match token.kind {
            Kind::Number(value) => {
                self.take();
                number_at(value, token.place)
            }
            Kind::Name => self.named(depth - 1),
            Kind::Word => self.asked(depth - 1),
            Kind::Text => {
                self.no_number("a number is due here, not a text; a byte is written 'a'")
            }
            Kind::Mark => {
                if self.at("-") {
                    return self.no_number("there are no numbers below 0");
                }
                if self.eat("(") {
                    return self.inner(")", depth - 1);
                }
                self.no_operand()
            }
            Kind::End => self.no_operand(),
        }
    }

    /// What stands before a closing bracket.
    #[cycle(exprs)]
    #[tactic(auto, using(crate::proofs::ReadExprSteps::inner_none, crate::proofs::ReadExprSteps::inner_step))]
    fn inner(&mut self, close: &str, depth: usize) -> Expr<'a>
        ensures { ReadsAs self.old self.new (expr_of result) (read_inner depth close.now (unread_of self.old)) }
    {
        if depth == 0 {
            return self.no_number("too much stands in one another here");
        }
        let inner = self.chain(Level::Or, depth - 1);
        self.need(close);
        inner
    }

    /// A name, or a byte of a table.
    #[cycle(exprs)]
    #[tactic(auto, using(crate::proofs::ReadExprSteps::named_none, crate::proofs::ReadExprSteps::named_step))]
    fn named(&mut self, depth: usize) -> Expr<'a>
        ensures { ReadsAs self.old self.new (expr_of result) (read_named depth (unread_of self.old)) }
    {
        if depth == 0 {
            return self.no_number("too much stands in one another here");
        }
        let name = self.name("a name");
        if !self.eat("[") {
            return variable(name);
        }
        let index = self.inner("]", depth - 1);
        self.look(name, index)
    }

    /// What is asked of a hold.
    #[cycle(exprs)]
    #[tactic(auto, using(crate::proofs::ReadExprSteps::asked_none, crate::proofs::ReadExprSteps::asked_step))]
    fn asked(&mut self, depth: usize) -> Expr<'a>
        ensures { ReadsAs self.old self.new (expr_of result) (read_asked depth (unread_of self.old)) }
    {
        if depth == 0 {
            return self.no_number("too much stands in one another here");
        }
        let place = self.token().place;
        if self.eat("size") {
            self.need("(");
            let of = self.hold_or_it();
            self.need(")");
            return size_of(of, place);
        }
        if self.eat("empty") {
            let hold = self.hold_after_bracket();
            self.need(")");
            return empty_of(hold, place);
        }
        if !self.eat("has") {
            self.due("a number");
            return none(place);
        }
        let hold = self.hold_after_bracket();
        self.need(",");
        let size = self.inner(")", depth - 1);
        self.has(hold, size, place)
    }

    #[tactic(auto, unfolding(crate::specs::ReadExprs::read_hold_behind))]
    fn hold_after_bracket(&mut self) -> Name<'a>
        ensures { ReadsAs self.old self.new (name_of result) (read_hold_behind (unread_of self.old)) }
    {
        self.need("(");
        self.name("the name of a hold")
    }
}
