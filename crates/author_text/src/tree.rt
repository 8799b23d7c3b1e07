//! A filter as the code generator takes it: checked, with each name bound.
//!
//! - A name is an index: of `numbers`, `holds` or `tables` of the `Filter`. Each index of a tree that `read_filter` gave is
//!   one of its list.
//! - A `def` is expanded where it runs, as a `Block`. A parameter whose argument is a constant, or a number that does not
//!   change in the body, stands for it; another is a number of its own, which the block sets first.
//! - `on match` is expanded into `on byte`. The number of its state is the last of those that last. Its table of patterns, if
//!   there is one, is the last table.
//! - `on byte b { .. }` is `on bucket { for byte b in it { .. } }`, whose loop has `is_on_byte`.
//! - What is known beforehand is computed. A constant stands on the right of a sum or a product where the other side is none. A
//!   shift is a product or a quotient. A comparison with a constant is `<`, `>=`, `==` or `!=`, and has it on the right.
//!   A condition that is known is `Known`, and stands in no `And`, `Or` or `Not`.
//! - Nothing follows an `End`, `Fail`, `Leave`, `Next`, `Break` or `Continue` in its list.

use crate::place::Place;

/// How long a number lasts.
#[derive(Clone, Copy)]
pub enum NumberKind {
    /// A `var`: it has this value where a request begins.
    Request(u32),
    /// A `conn var`: it has this value where a connection begins.
    Connection(u32),
    /// It lasts for the block that it stands in: by `let`, the byte of a loop, or a parameter of a `def`.
    Local,
    /// The place of a loop, counted from 0, with or without a name.
    Index,
}

/// A number that a filter has.
#[derive(Drop)]
pub struct Number {
    /// Its name. One that the compiler made is in round brackets.
    pub name: Vec<u8>,
    pub place: Place,
    pub kind: NumberKind,
}

/// A list of what was kept.
#[derive(Drop)]
pub struct Hold {
    pub name: Vec<u8>,
    pub place: Place,
    /// Whether it lasts for the connection, and not for the request.
    pub is_conn: bool,
    /// How many bytes it holds at most, where the author says so. A `keep` past that is a `fail`.
    pub limit: Option<u32>,
}

/// Bytes that are read by their index, 0 past the end. There is one byte at least.
#[derive(Drop)]
pub struct Table {
    pub name: Vec<u8>,
    pub place: Place,
    pub bytes: Vec<u8>,
    /// Whether a `Look` of the tree reads it.
    pub is_read: bool,
}

/// A sum or a difference. Numbers stop at 0 and at 4294967295.
#[derive(Clone, Copy)]
pub enum SumOp {
    Add,
    Sub,
}

/// What is done with a constant.
#[derive(Clone, Copy, PartialEq, Eq)]
pub enum ScaleOp {
    Times,
    /// The constant is not 0.
    Over,
    /// The constant is not 0.
    Modulo,
}

/// A number. Its `node` is one of `0..nodes` of the filter, that no other node of the tree has.
#[derive(Drop)]
pub enum Expr {
    Constant {
        value: u32,
        place: Place,
    },
    Variable {
        number: usize,
        place: Place,
    },
    /// The byte of a table, 0 past its end.
    Look {
        table: usize,
        index: Box<Expr>,
        node: usize,
        place: Place,
    },
    /// How many bytes a hold has, or `it`.
    Size {
        hold: Option<usize>,
        place: Place,
    },
    Sum {
        op: SumOp,
        left: Box<Expr>,
        right: Box<Expr>,
        place: Place,
    },
    Scale {
        op: ScaleOp,
        left: Box<Expr>,
        by: u32,
        node: usize,
        place: Place,
    },
}

#[derive(Clone, Copy)]
pub enum Comparison {
    Less,
    /// It has no constant on the right.
    LessOrEqual,
    /// It has no constant on the right.
    Greater,
    GreaterOrEqual,
    Equal,
    NotEqual,
}

/// A condition.
#[derive(Drop)]
pub enum Cond {
    Known(bool),
    Compare {
        op: Comparison,
        left: Expr,
        right: Expr,
    },
    And(Box<Cond>, Box<Cond>),
    Or(Box<Cond>, Box<Cond>),
    Not(Box<Cond>),
    /// The hold has no bytes.
    Empty {
        hold: usize,
    },
    /// The hold has this many bytes at least.
    Has {
        hold: usize,
        size: Expr,
    },
}

/// What is emitted or kept.
#[derive(Drop)]
pub enum Thing {
    /// A text, which may be empty.
    Text(Vec<u8>),
    /// The bucket itself, or a copy.
    It { is_copy: bool },
    /// All of a hold, which is empty afterwards, or a copy of it.
    Whole { hold: usize, is_copy: bool },
    /// The shortest front of a hold that has so many bytes, or all of it.
    Part { hold: usize, size: Expr },
    /// The number in decimal digits.
    Decimal { value: Expr, node: usize },
    /// The number as a byte: one over 255 as 255. A constant is at most 255.
    Byte { value: Expr, node: usize },
}

/// A statement.
#[derive(Drop)]
pub enum Stmt {
    /// A number gets a value. At `is_let` it comes into being there, and is in use up to the end of the list.
    Set {
        number: usize,
        value: Expr,
        is_let: bool,
        place: Place,
    },
    /// `emit`, where there is no hold, and `keep`.
    Put {
        thing: Thing,
        to: Option<usize>,
        place: Place,
    },
    DropIt {
        place: Place,
    },
    DropHold {
        hold: usize,
        place: Place,
    },
    Cut {
        at: Expr,
        place: Place,
    },
    Flush {
        place: Place,
    },
    Pass {
        place: Place,
    },
    End {
        place: Place,
    },
    Fail {
        place: Place,
    },
    Leave {
        place: Place,
    },
    /// The innermost `Once`, loop with `is_on_byte` or handler is done.
    Next {
        place: Place,
    },
    Break {
        place: Place,
    },
    Continue {
        place: Place,
    },
    If {
        test: Cond,
        then: Vec<Stmt>,
        other: Vec<Stmt>,
        place: Place,
    },
    /// A loop, without end where it has no test.
    While {
        test: Option<Cond>,
        body: Vec<Stmt>,
        place: Place,
    },
    /// A loop over the bytes of a hold, or of `it`.
    For {
        byte: usize,
        index: usize,
        /// Whether the author named the index.
        is_indexed: bool,
        over: Option<usize>,
        /// Whether this is the loop of `on byte`, where `Next` goes on with the next byte.
        is_on_byte: bool,
        body: Vec<Stmt>,
        place: Place,
    },
    /// What a `def` does: numbers that come into being in it are in use up to its end.
    Block {
        body: Vec<Stmt>,
        place: Place,
    },
    /// The author's `on byte` or `on match` within the loop that `on match` became: `Next` leads to its end.
    Once {
        body: Vec<Stmt>,
        place: Place,
    },
    /// The byte of the innermost loop comes again: its index goes back by one.
    Unread {
        place: Place,
    },
    /// A label, reported when the request ends, or the connection. It has at most 255 bytes.
    Log {
        is_conn: bool,
        text: Vec<u8>,
        place: Place,
    },
}

/// What a handler waits for.
#[derive(Clone, Copy, PartialEq, Eq)]
pub enum Event {
    Start,
    Call,
    Bucket,
    Flush,
    Return,
    Eos,
}

/// What is done at an event. No two handlers of a filter have one event.
#[derive(Drop)]
pub struct Handler {
    pub event: Event,
    pub body: Vec<Stmt>,
}

/// A filter.
#[derive(Drop)]
pub struct Filter {
    pub name: Vec<u8>,
    /// Those that last come first, in the order of their declarations.
    pub numbers: Vec<Number>,
    /// How many numbers last.
    pub lasting: usize,
    pub holds: Vec<Hold>,
    pub tables: Vec<Table>,
    pub handlers: Vec<Handler>,
    /// Whether `on bucket` is the loop of an `on byte`.
    pub is_by_bytes: bool,
    /// How many nodes have a `node` of their own.
    pub nodes: usize,
}
