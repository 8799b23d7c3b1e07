//! Writing a tree as text, which is read as the same tree.

ghost use Rattle.std.specs.Prelude.{◌≡◌, ◌∷◌, [], ◌++◌, IfOk, codes, decimal, map};
ghost use Rattle.std.specs.List.{flat_map};
ghost use Rattle.byte_text.specs.Quoted.{spelling};
ghost use Rattle.author_text.specs.Adding.{AddsText};
ghost use Rattle.author_text.specs.Printed.{expr_text, hold_or_it, level_of, within_text};
ghost use Rattle.author_text.specs.PrintedSource.{block_of, body_text, change_text, is_choice, IsSimple, optional_text, other_text};
ghost use Rattle.author_text.specs.PrintedSource.{plain_text, put_word, stmt_text, thing_text, walk_text};
ghost use Rattle.author_text.specs.PrintedSource.{conn_text, event_text, decl_text, handler_text, line, listed, source_text, text_text, trigger_text};
ghost use Rattle.author_text.specs.Trees.{decl_of, expr_of, handler_of, name_of, names_of};
ghost use Rattle.author_text.specs.Trees.{source_of, stmt_of, stmts_of, text_of, thing_of, trigger_of};

use crate::grammar::event_text;
use crate::operators::{Level, closer, left_level, operator_level, operator_text, rank};
use crate::source::{
    Decl, Expr, Handler, Name, SetOp, Setting, Source, Stmt, Text, Thing, Trigger,
};
use crate::stmts::plain_text;
use byte_text::push_spelling;
use std::alloc::{AllocError, Global};

/// What was written so far, and whether there was memory for all of it.
#[derive(Drop)]
struct Printer {
    alloc: Global,
    out: Vec<u8>,
    is_whole: bool,
}

/// How closely an expression binds.
fn level_of(expr: &Expr<'_>) -> Level
    ensures { result ≡ level_of (expr_of expr.now) }
{
    match expr {
        Expr::Binary { op, .. } => operator_level(*op),
        Expr::Not { .. } => Level::Compare,
        Expr::Number { .. }
        | Expr::Name(_)
        | Expr::Size { .. }
        | Expr::Empty { .. }
        | Expr::Has { .. }
        | Expr::Look { .. } => Level::Unit,
    }
}

/// Whether a statement is an `if`.
fn is_choice(stmt: &Stmt<'_>) -> bool
    ensures { result ≡ is_choice (stmt_of stmt.now) }
{
    match stmt {
        Stmt::If { .. } => true,
        Stmt::Let { .. }
        | Stmt::Set { .. }
        | Stmt::Run { .. }
        | Stmt::Put { .. }
        | Stmt::Drop { .. }
        | Stmt::Cut { .. }
        | Stmt::Plain { .. }
        | Stmt::While { .. }
        | Stmt::For { .. }
        | Stmt::Log { .. } => false,
    }
}

/// How a change of a number is written.
fn change_text(op: SetOp) -> &'static str
    ensures { result.now ≡ change_text op }
{
    match op {
        SetOp::Becomes => " = ",
        SetOp::Add => " += ",
        SetOp::Sub => " -= ",
    }
}

impl Printer {
    fn push(&mut self, bytes: &[u8])
        ensures { AddsText self.old self.new bytes.now }
    {
        if self.out.extend_from_slice(bytes).is_err() {
            self.is_whole = false;
        }
    }

    /// A name behind a word.
    fn name(&mut self, word: &[u8], name: Name<'_>)
        ensures { AddsText self.old self.new (word.now ++ name_of name.entry) }
    {
        self.push(word);
        self.push(name.text);
    }

    /// A name, or `it` where there is none.
    fn hold_or_it(&mut self, name: Option<Name<'_>>)
        ensures { AddsText self.old self.new (hold_or_it (names_of name.entry)) }
    {
        match name {
            Some(name) => self.push(name.text),
            None => self.push(b"it"),
        }
    }

    /// A name behind a word, where there is one.
    fn optional_name(&mut self, word: &[u8], name: Option<Name<'_>>)
        ensures { AddsText self.old self.new (optional_text word.now (names_of name.entry)) }
    {
        if let Some(name) = name {
            self.name(word, name);
        }
    }

    /// A number in decimal digits.
    fn number(&mut self, value: u32)
        ensures { AddsText self.old self.new (decimal value) }
    {
        match format!(in self.alloc; "{value}") {
            Ok(digits) => self.push(digits.as_bytes()),
            Err(_) => self.is_whole = false,
        }
    }

    fn quoted(&mut self, bytes: &[u8])
        ensures { AddsText self.old self.new (spelling bytes.now) }
    {
        if push_spelling(&mut self.out, bytes).is_err() {
            self.is_whole = false;
        }
    }

    fn text(&mut self, text: &Text<'_>)
        ensures { AddsText self.old self.new (text_text (text_of text.now)) }
    {
        match text {
            Text::Quoted { bytes, .. } => self.quoted(bytes.as_slice()),
            Text::Param(name) => self.push(name.text),
        }
    }

    /// An expression where one stands that binds so closely at least.
    #[cycle(exprs)]
    fn within(&mut self, expr: &Expr<'_>, level: Level)
        ensures { AddsText self.old self.new (within_text (expr_of expr.now) level) }
    {
        if rank(level_of(expr)) < rank(level) {
            self.push(b"(");
            self.expr(expr);
            self.push(b")");
        } else {
            self.expr(expr);
        }
    }

    #[cycle(exprs)]
    fn expr(&mut self, expr: &Expr<'_>)
        ensures { AddsText self.old self.new (expr_text (expr_of expr.now)) }
    {
        match expr {
            Expr::Number { value, .. } => self.number(*value),
            Expr::Name(name) => self.push(name.text),
            Expr::Size { of, .. } => {
                self.push(b"size(");
                self.hold_or_it(*of);
                self.push(b")");
            }
            Expr::Empty { hold, .. } => {
                self.name(b"empty(", *hold);
                self.push(b")");
            }
            Expr::Has { hold, size, .. } => {
                self.name(b"has(", *hold);
                self.push(b", ");
                self.expr(size);
                self.push(b")");
            }
            Expr::Look { table, index } => {
                self.name(b"", *table);
                self.push(b"[");
                self.expr(index);
                self.push(b"]");
            }
            Expr::Not { of, .. } => {
                self.push(b"not ");
                self.within(of, Level::Compare);
            }
            Expr::Binary {
                op,
                left,
                right,
                ..
            } => {
                let level = operator_level(*op);
                self.within(left, left_level(level));
                self.push(b" ");
                self.push(operator_text(*op).as_bytes());
                self.push(b" ");
                self.within(right, closer(level));
            }
        }
    }

    /// An expression behind a word.
    fn behind(&mut self, word: &[u8], expr: &Expr<'_>)
        ensures { AddsText self.old self.new (word.now ++ expr_text (expr_of expr.now)) }
    {
        self.push(word);
        self.expr(expr);
    }

    fn thing(&mut self, thing: &Thing<'_>)
        ensures { AddsText self.old self.new (thing_text (thing_of thing.now)) }
    {
        match thing {
            Thing::Text(text) => self.text(text),
            Thing::It { is_copy: false, .. } => self.push(b"it"),
            Thing::It { is_copy: true, .. } => self.push(b"copy it"),
            Thing::Copy(name) => self.name(b"copy ", *name),
            Thing::Decimal { value } => {
                self.behind(b"decimal(", value);
                self.push(b")");
            }
            Thing::Part { size, hold } => {
                self.expr(size);
                self.name(b" of ", *hold);
            }
            Thing::Number { value, .. } => self.expr(value),
        }
    }

    /// What follows `else`, if anything does.
    #[cycle(stmts)]
    fn other(&mut self, other: &[Stmt<'_>])
        ensures { AddsText self.old self.new (other_text (stmts_of other.now)) }
    {
        match other {
            [] => {}
            [inner] => {
                if is_choice(inner) {
                    self.push(b" else ");
                    self.stmt(inner);
                } else {
                    self.block(b" else ", other);
                }
            }
            [_, _, ..] => self.block(b" else ", other),
        }
    }

    /// A block behind what is written before it.
    #[cycle(stmts)]
    fn block(&mut self, before: &[u8], body: &[Stmt<'_>])
        ensures { AddsText self.old self.new (before.now ++ block_of (body_text (stmts_of body.now))) }
    {
        self.push(before);
        self.push(b"{\n");
        self.lines(body);
        self.push(b"}");
    }

    /// Statements, each on lines of its own.
    #[cycle(stmts)]
    fn lines(&mut self, body: &[Stmt<'_>])
        ensures { AddsText self.old self.new (flat_map (λ s. line (stmt_text (stmt_of s))) body.now) }
    {
        for stmt in body {
            self.stmt(stmt);
            self.push(b"\n");
        }
    }

    #[cycle(stmts)]
    fn stmt(&mut self, stmt: &Stmt<'_>)
        ensures { AddsText self.old self.new (stmt_text (stmt_of stmt.now)) }
    {
        match stmt {
            Stmt::If {
                test,
                then,
                other,
                ..
            } => {
                self.behind(b"if ", test);
                self.block(b" ", then.as_slice());
                self.other(other.as_slice());
            }
            Stmt::While {
                test: None,
                body,
                ..
            } => self.block(b"loop ", body.as_slice()),
            Stmt::While {
                test: Some(test),
                body,
                ..
            } => {
                self.behind(b"while ", test);
                self.block(b" ", body.as_slice());
            }
            Stmt::For {
                byte,
                index,
                over,
                body,
                ..
            } => {
                self.walk(*byte, *index, *over);
                self.block(b" ", body.as_slice());
            }
            Stmt::Let { .. }
            | Stmt::Set { .. }
            | Stmt::Run { .. }
            | Stmt::Put { .. }
            | Stmt::Drop { .. }
            | Stmt::Cut { .. }
            | Stmt::Plain { .. }
            | Stmt::Log { .. } => self.simple(stmt),
        }
    }

    /// What stands before the block of `for`.
    fn walk(&mut self, byte: Name<'_>, index: Option<Name<'_>>, over: Option<Name<'_>>)
        ensures { AddsText self.old self.new (walk_text (name_of byte.entry) (names_of index.entry) (names_of over.entry)) }
    {
        self.name(b"for byte ", byte);
        self.optional_name(b" at ", index);
        self.push(b" in ");
        self.hold_or_it(over);
    }

    /// A statement in which none stands.
    fn simple(&mut self, stmt: &Stmt<'_>)
        requires { IsSimple (stmt_of stmt.now) }
        ensures { AddsText self.old self.new (stmt_text (stmt_of stmt.now)) }
    {
        match stmt {
            Stmt::Let { name, value } => self.set(b"let ", *name, " = ", value),
            Stmt::Set { name, op, value } => self.set(b"", *name, change_text(*op), value),
            Stmt::Run { name, args } => {
                self.push(name.text);
                self.args(args.as_slice());
            }
            Stmt::Put { thing, to, .. } => self.put(thing, *to),
            Stmt::Drop { of, .. } => {
                self.push(b"drop ");
                self.hold_or_it(*of);
            }
            Stmt::Cut { at, .. } => self.behind(b"cut it at ", at),
            Stmt::Plain { word, .. } => self.push(plain_text(*word).as_bytes()),
            Stmt::Log { is_conn, text, .. } => self.log(*is_conn, text),
            Stmt::If { .. } | Stmt::While { .. } | Stmt::For { .. } => {}
        }
    }

    /// A name behind a word, and a number behind what stands between them.
    fn set(&mut self, word: &[u8], name: Name<'_>, op: &str, value: &Expr<'_>)
        ensures { AddsText self.old self.new (word.now ++ name_of name.entry ++ op.now ++ expr_text (expr_of value.now)) }
    {
        self.name(word, name);
        self.behind(op.as_bytes(), value);
    }

    /// Numbers in brackets, with commas between them.
    fn args(&mut self, args: &[Expr<'_>])
        ensures { AddsText self.old self.new (listed expr_text (map expr_of args.now)) }
    {
        match args {
            [] => self.push(b"()"),
            [first, rest @ ..] => {
                self.behind(b"(", first);
                self.more_args(rest);
                self.push(b")");
            }
        }
    }

    fn more_args(&mut self, args: &[Expr<'_>])
        ensures { AddsText self.old self.new (flat_map (λ e. codes ", " ++ expr_text (expr_of e)) args.now) }
    {
        for arg in args {
            self.behind(b", ", arg);
        }
    }

    fn put(&mut self, thing: &Thing<'_>, to: Option<Name<'_>>)
        ensures { AddsText self.old self.new (put_word (names_of to.entry) ++ thing_text (thing_of thing.now)
            ++ optional_text (codes " in ") (names_of to.entry)) }
    {
        match to {
            Some(name) => {
                self.push(b"keep ");
                self.thing(thing);
                self.name(b" in ", name);
            }
            None => {
                self.push(b"emit ");
                self.thing(thing);
            }
        }
    }

    fn log(&mut self, is_conn: bool, text: &Text<'_>)
        ensures { AddsText self.old self.new (codes "log " ++ conn_text is_conn ++ text_text (text_of text.now)) }
    {
        self.push(b"log ");
        self.conn(is_conn);
        self.text(text);
    }

    /// `conn`, where something lasts as long as the connection.
    fn conn(&mut self, is_conn: bool)
        ensures { AddsText self.old self.new (conn_text is_conn) }
    {
        if is_conn {
            self.push(b"conn ");
        }
    }

    fn decl(&mut self, decl: &Decl<'_>)
        ensures { AddsText self.old self.new (decl_text (decl_of decl.now)) }
    {
        match decl {
            Decl::Var {
                name,
                is_conn,
                value,
            } => {
                self.conn(*is_conn);
                self.set(b"var ", *name, " = ", value);
            }
            Decl::Hold {
                name,
                is_conn,
                limit,
            } => {
                self.conn(*is_conn);
                self.name(b"hold ", *name);
                if let Some(limit) = limit {
                    self.behind(b" at most ", limit);
                }
            }
            Decl::Const { name, value } => self.set(b"const ", *name, " = ", value),
            Decl::Param {
                name,
                value: Setting::Number(value),
            } => {
                self.set(b"param ", *name, " = ", value);
            }
            Decl::Param {
                name,
                value: Setting::Text(bytes),
            } => {
                self.name(b"param ", *name);
                self.push(b" = ");
                self.quoted(bytes.as_slice());
            }
            Decl::Table { name, text } => {
                self.name(b"table ", *name);
                self.push(b" = ");
                self.text(text);
            }
            Decl::Def(def) => {
                self.name(b"def ", def.name);
                self.names(def.params.as_slice());
                self.block(b" ", def.body.as_slice());
            }
        }
    }

    /// The names of the parameters of a `def`.
    fn names(&mut self, names: &[Name<'_>])
        ensures { AddsText self.old self.new (listed (λ n. n) (map name_of names.now)) }
    {
        match names {
            [] => self.push(b"()"),
            [first, rest @ ..] => {
                self.name(b"(", *first);
                self.more_names(rest);
                self.push(b")");
            }
        }
    }

    fn more_names(&mut self, names: &[Name<'_>])
        ensures { AddsText self.old self.new (flat_map (λ n. codes ", " ++ name_of n) names.now) }
    {
        for name in names {
            self.name(b", ", *name);
        }
    }

    fn trigger(&mut self, on: &Trigger<'_>)
        ensures { AddsText self.old self.new (trigger_text (trigger_of on.now)) }
    {
        match on {
            Trigger::Event(event) => {
                self.push(b"on ");
                self.push(event_text(*event).as_bytes());
            }
            Trigger::Byte(name) => self.name(b"on byte ", *name),
            Trigger::Match(text) => {
                self.push(b"on match ");
                self.text(text);
            }
        }
    }

    /// Declarations, each on lines of its own.
    fn decls(&mut self, decls: &[Decl<'_>])
        ensures { AddsText self.old self.new (flat_map (λ d. line (decl_text (decl_of d))) decls.now) }
    {
        for decl in decls {
            self.decl(decl);
            self.push(b"\n");
        }
    }

    /// Handlers, each on lines of its own.
    fn handlers(&mut self, handlers: &[Handler<'_>])
        ensures { AddsText self.old self.new (flat_map (λ h. line (handler_text (handler_of h))) handlers.now) }
    {
        for handler in handlers {
            self.trigger(&handler.on);
            self.block(b" ", handler.body.as_slice());
            self.push(b"\n");
        }
    }
}

/// The text of a filter: a declaration, a statement or a handler begins a line. It is read as the same tree, places apart.
#[tactic(auto, using(crate::proofs::PrintedLaws::mapped))]
pub fn print(alloc: Global, source: &Source<'_>) -> Result<Vec<u8>, AllocError>
    ensures { IfOk result (λ text. text.items ≡ source_text (source_of source.now)) }
{
    let mut printer = Printer {
        alloc,
        out: Vec::new(alloc),
        is_whole: true,
    };
    printer.push(b"filter ");
    printer.push(source.name);
    printer.push(b"\n");
    printer.decls(source.decls.as_slice());
    printer.handlers(source.handlers.as_slice());
    if printer.is_whole {
        Ok(printer.out)
    } else {
        Err(AllocError)
    }
}
