//! A filter as its text says it: the tree that is read and printed.

use crate::place::Place;
use crate::tree::Event;

/// A name where it stands.
#[derive(Clone, Copy)]
pub struct Name<'a> {
    pub text: &'a [u8],
    pub place: Place,
}

/// A text: what stands in quotes, or the name of a `param` that is one.
#[derive(Drop)]
pub enum Text<'a> {
    Quoted { bytes: Vec<u8>, place: Place },
    Param(Name<'a>),
}

/// What stands between two numbers or two conditions.
#[derive(Clone, Copy)]
pub enum BinaryOp {
    Or,
    And,
    Less,
    LessOrEqual,
    Greater,
    GreaterOrEqual,
    Equal,
    NotEqual,
    Add,
    Sub,
    Times,
    Over,
    Modulo,
    ShiftLeft,
    ShiftRight,
}

/// A number or a condition. Where a hold may be `it`, no name is `it`.
#[derive(Drop)]
pub enum Expr<'a> {
    Number {
        value: u32,
        place: Place,
    },
    Name(Name<'a>),
    Size {
        of: Option<Name<'a>>,
        place: Place,
    },
    Empty {
        hold: Name<'a>,
        place: Place,
    },
    Has {
        hold: Name<'a>,
        size: Box<Expr<'a>>,
        place: Place,
    },
    Look {
        table: Name<'a>,
        index: Box<Expr<'a>>,
    },
    Not {
        of: Box<Expr<'a>>,
        place: Place,
    },
    /// Its place is that of the operator.
    Binary {
        op: BinaryOp,
        left: Box<Expr<'a>>,
        right: Box<Expr<'a>>,
        place: Place,
    },
}

/// What is emitted or kept.
#[derive(Drop)]
pub enum Thing<'a> {
    Text(Text<'a>),
    It { is_copy: bool, place: Place },
    /// A copy of a hold.
    Copy(Name<'a>),
    Decimal { value: Expr<'a> },
    Part { size: Expr<'a>, hold: Name<'a> },
    /// A number; or a name alone, which may be that of a hold or of a text.
    Number { value: Expr<'a>, place: Place },
}

/// A statement that is a word.
#[derive(Clone, Copy)]
pub enum Plain {
    Flush,
    Pass,
    End,
    Fail,
    Leave,
    Next,
    Break,
    Continue,
}

/// How a number changes.
#[derive(Clone, Copy)]
pub enum SetOp {
    Becomes,
    Add,
    Sub,
}

/// A statement. Its place is where it begins.
#[derive(Drop)]
pub enum Stmt<'a> {
    Let {
        name: Name<'a>,
        value: Expr<'a>,
    },
    Set {
        name: Name<'a>,
        op: SetOp,
        value: Expr<'a>,
    },
    Run {
        name: Name<'a>,
        args: Vec<Expr<'a>>,
    },
    /// `emit`, or `keep` in a hold.
    Put {
        thing: Thing<'a>,
        to: Option<Name<'a>>,
        place: Place,
    },
    Drop {
        of: Option<Name<'a>>,
        place: Place,
    },
    Cut {
        at: Expr<'a>,
        place: Place,
    },
    Plain {
        word: Plain,
        place: Place,
    },
    If {
        test: Expr<'a>,
        then: Vec<Stmt<'a>>,
        other: Vec<Stmt<'a>>,
        place: Place,
    },
    /// `while`, or `loop` where there is no test.
    While {
        test: Option<Expr<'a>>,
        body: Vec<Stmt<'a>>,
        place: Place,
    },
    For {
        byte: Name<'a>,
        index: Option<Name<'a>>,
        over: Option<Name<'a>>,
        body: Vec<Stmt<'a>>,
        place: Place,
    },
    Log {
        is_conn: bool,
        text: Text<'a>,
        place: Place,
    },
}

/// A piece of code with a name.
#[derive(Drop)]
pub struct Def<'a> {
    pub name: Name<'a>,
    pub params: Vec<Name<'a>>,
    pub body: Vec<Stmt<'a>>,
}

/// What the operator may set: a number, or a text.
#[derive(Drop)]
pub enum Setting<'a> {
    Number(Expr<'a>),
    Text(Vec<u8>),
}

/// What is declared before the first `on`.
#[derive(Drop)]
pub enum Decl<'a> {
    Var {
        name: Name<'a>,
        is_conn: bool,
        value: Expr<'a>,
    },
    Hold {
        name: Name<'a>,
        is_conn: bool,
        limit: Option<Expr<'a>>,
    },
    Const {
        name: Name<'a>,
        value: Expr<'a>,
    },
    Param {
        name: Name<'a>,
        value: Setting<'a>,
    },
    Table {
        name: Name<'a>,
        text: Text<'a>,
    },
    Def(Def<'a>),
}

/// What a handler waits for.
#[derive(Drop)]
pub enum Trigger<'a> {
    Event(Event),
    Byte(Name<'a>),
    Match(Text<'a>),
}

/// `on`, and what is done then.
#[derive(Drop)]
pub struct Handler<'a> {
    pub on: Trigger<'a>,
    pub body: Vec<Stmt<'a>>,
    pub place: Place,
}

/// A filter as it is written.
#[derive(Drop)]
pub struct Source<'a> {
    pub name: &'a [u8],
    pub decls: Vec<Decl<'a>>,
    pub handlers: Vec<Handler<'a>>,
}
