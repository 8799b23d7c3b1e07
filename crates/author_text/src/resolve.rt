//! Statements of the tree.

use crate::place::Place;
use crate::scope::{Meaning, Resolver};
use crate::source;
use crate::source::{Name, Plain, SetOp};
use crate::stmts::plain_text;
use crate::tree::{Event, Expr, Number, NumberKind, Stmt, SumOp};

/// How many statements a filter has at most, once each `def` stands where it runs.
pub const MAX_STMTS: usize = 65_536;

/// Where a statement begins.
fn begin_of(stmt: &source::Stmt<'_>) -> Place {
    match stmt {
        source::Stmt::Let { name, .. }
        | source::Stmt::Set { name, .. }
        | source::Stmt::Run { name, .. } => name.place,
        source::Stmt::Put { place, .. }
        | source::Stmt::Drop { place, .. }
        | source::Stmt::Cut { place, .. }
        | source::Stmt::Plain { place, .. }
        | source::Stmt::If { place, .. }
        | source::Stmt::While { place, .. }
        | source::Stmt::For { place, .. }
        | source::Stmt::Log { place, .. } => *place,
    }
}

/// The word of a statement behind which nothing is reached.
fn last_word(stmt: &Stmt) -> Option<&'static str> {
    match stmt {
        Stmt::End { .. } => Some("end"),
        Stmt::Fail { .. } => Some("fail"),
        Stmt::Leave { .. } => Some("leave"),
        Stmt::Next { .. } => Some("next"),
        Stmt::Break { .. } => Some("break"),
        Stmt::Continue { .. } => Some("continue"),
        _ => None,
    }
}

/// What a word does.
fn plain(word: Plain, place: Place) -> Stmt {
    match word {
        Plain::Flush => Stmt::Flush { place },
        Plain::Pass => Stmt::Pass { place },
        Plain::End => Stmt::End { place },
        Plain::Fail => Stmt::Fail { place },
        Plain::Leave => Stmt::Leave { place },
        Plain::Next => Stmt::Next { place },
        Plain::Break => Stmt::Break { place },
        Plain::Continue => Stmt::Continue { place },
    }
}

impl<'a, 's> Resolver<'a, 's> {
    /// What is wrong where a statement stands, and what stands in for it.
    pub fn no_stmt(&mut self, place: Place, what: &str) -> Stmt {
        self.faults.says(place, what);
        Stmt::Fail { place }
    }

    /// The statements of a block.
    #[cycle(resolve)]
    pub fn block_of(&mut self, body: &[source::Stmt<'a>], depth: usize) -> Vec<Stmt> {
        let mut made = Vec::new(self.alloc);
        if depth == 0 {
            self.too_deep(body);
            return made;
        }
        let below = depth - 1;
        let outer = self.spot.block;
        let mark = self.locals.len();
        self.spot.block = mark;
        for stmt in body {
            self.check_reached(made.last(), begin_of(stmt));
            if self.faults.is_any() {
                break;
            }
            let next = self.stmt(stmt, below);
            self.faults.append(&mut made, next);
        }
        self.locals.truncate(mark);
        self.spot.block = outer;
        made
    }

    fn too_deep(&mut self, body: &[source::Stmt<'a>]) {
        let place = match body.first() {
            Some(stmt) => begin_of(stmt),
            None => Place { line: 1, column: 1 },
        };
        self.faults
            .says(place, "too much stands in one another here");
    }

    /// Refuses a statement at this place where it is not reached, or one too many.
    fn check_reached(&mut self, before: Option<&Stmt>, place: Place) {
        let word = match before {
            Some(stmt) => last_word(stmt),
            None => None,
        };
        if let Some(word) = word {
            let before = ["this is never reached: `", word];
            self.faults
                .says_of(place, &before, b"", "` stands before it");
        }
        if MAX_STMTS <= self.made {
            self.faults.says(place, "the filter is too long");
        }
        self.made = self.made.saturating_add(1);
    }

    #[cycle(resolve)]
    fn stmt(&mut self, stmt: &source::Stmt<'a>, depth: usize) -> Stmt {
        if depth == 0 {
            return self.no_stmt(begin_of(stmt), "too much stands in one another here");
        }
        match stmt {
            source::Stmt::If {
                test,
                then,
                other,
                place,
            } => {
                let test = self.condition(test);
                let then = self.block_of(then, depth - 1);
                let other = self.block_of(other, depth - 1);
                Stmt::If {
                    test,
                    then,
                    other,
                    place: *place,
                }
            }
            source::Stmt::While { test, body, place } => {
                let test = match test {
                    Some(test) => Some(self.condition(test)),
                    None => None,
                };
                let loops = self.spot.loops;
                self.spot.loops = loops.saturating_add(1);
                let body = self.block_of(body, depth - 1);
                self.spot.loops = loops;
                Stmt::While {
                    test,
                    body,
                    place: *place,
                }
            }
            source::Stmt::For {
                byte,
                index,
                over,
                body,
                place,
            } => self.walk((*byte, *index), *over, (body, *place), depth - 1),
            source::Stmt::Run { name, args } => self.run(*name, args, depth - 1),
            other => self.simple(other),
        }
    }

    /// A loop over the bytes of a hold, or of `it`.
    #[cycle(resolve)]
    fn walk(
        &mut self,
        names: (Name<'a>, Option<Name<'a>>),
        over: Option<Name<'a>>,
        block: (&[source::Stmt<'a>], Place),
        depth: usize,
    ) -> Stmt {
        let place = block.1;
        if depth == 0 {
            return self.no_stmt(place, "too much stands in one another here");
        }
        let outer = self.spot;
        let over = match over {
            Some(name) => Some(self.enter_hold(names.1, name)),
            None => {
                self.enter_it(place);
                None
            }
        };
        if depth == 1 {
            return self.no_stmt(place, "too much stands in one another here");
        }
        let mark = self.locals.len();
        self.spot.block = mark;
        let (byte, index) = self.walkers(names, place);
        self.spot.loops = outer.loops.saturating_add(1);
        let body = self.block_of(block.0, depth - 2);
        self.locals.truncate(mark);
        self.spot = outer;
        if over.is_some() {
            self.over.pop();
        }
        Stmt::For {
            byte,
            index,
            is_indexed: names.1.is_some(),
            over,
            is_on_byte: false,
            body,
            place,
        }
    }

    /// Notes that a loop goes over a hold, which has no place.
    fn enter_hold(&mut self, index: Option<Name<'a>>, name: Name<'a>) -> usize {
        if let Some(index) = index {
            self.faults.says(index.place, "the place is known in a loop over `it` alone");
        }
        let hold = self.hold(name);
        if self.over.contains(&hold) {
            let after = "` stands in a loop over it";
            self.faults
                .says_of(name.place, &["a loop over `"], name.text, after);
        }
        self.faults.append(&mut self.over, hold);
        hold
    }

    /// Notes that a loop at this place goes over `it`.
    fn enter_it(&mut self, place: Place) {
        if !self.spot.is_by_byte {
            self.check_it(place);
        }
        if matches!(self.spot.event, Event::Flush) {
            self.faults.says(place, "a FLUSH has no bytes");
        }
        if self.spot.is_over_it {
            self.faults
                .says(place, "a loop over `it` stands in a loop over it");
        }
        self.spot.is_over_it = true;
    }

    /// The byte and the place of a loop.
    pub fn walkers(&mut self, names: (Name<'a>, Option<Name<'a>>), place: Place) -> (usize, usize) {
        let byte = self.new_local(names.0, NumberKind::Local);
        let index = match names.1 {
            Some(index) => self.new_local(index, NumberKind::Index),
            None => self.new_number(b"(place)", place, NumberKind::Index),
        };
        (byte, index)
    }

    /// A number of the innermost block.
    fn new_local(&mut self, name: Name<'a>, kind: NumberKind) -> usize {
        let number = self.new_number(name.text, name.place, kind);
        self.bind(name, Meaning::Number(number));
        number
    }

    /// A statement in which none stands.
    fn simple(&mut self, stmt: &source::Stmt<'a>) -> Stmt {
        match stmt {
            source::Stmt::Let { name, value } => {
                let value = self.number(value);
                let number = self.new_local(*name, NumberKind::Local);
                Stmt::Set {
                    number,
                    value,
                    is_let: true,
                    place: name.place,
                }
            }
            source::Stmt::Set { name, op, value } => self.set(*name, *op, value),
            source::Stmt::Put { thing, to, place } => self.put(thing, *to, *place),
            source::Stmt::Drop { of: None, place } => {
                self.check_change(*place);
                Stmt::DropIt { place: *place }
            }
            source::Stmt::Drop {
                of: Some(hold),
                place,
            } => self.drop_hold(*hold, *place),
            source::Stmt::Cut { at, place } => self.cut(at, *place),
            source::Stmt::Plain { word, place } => self.word(*word, *place),
            source::Stmt::Log {
                is_conn,
                text,
                place,
            } => self.log(*is_conn, text, *place),
            other => self.no_stmt(begin_of(other), "a statement is due here"),
        }
    }

    /// What a hold has is gone.
    fn drop_hold(&mut self, name: Name<'a>, place: Place) -> Stmt {
        if let Some(Meaning::Number(_)) = self.find(name) {
            self.says_of(
                name,
                "` is a number: what is not emitted is gone anyway; write `next` to be done with a byte",
            );
        }
        let hold = self.changed_hold(name);
        Stmt::DropHold { hold, place }
    }

    /// The number that a name sets.
    fn variable(&mut self, name: Name<'a>) -> usize {
        match self.find(name) {
            Some(Meaning::Number(number)) => {
                if let Some(
                    Number {
                        kind: NumberKind::Index,
                        ..
                    },
                ) = self.filter.numbers.get(number)
                {
                    self.says_of(name, "` is the place of the loop, and may not be set");
                }
                return number;
            }
            Some(Meaning::Constant(_) | Meaning::Def(_)) => {
                self.says_of(name, "` is no variable: it is a constant");
            }
            _ => self.says_of(name, "` is no variable"),
        }
        0
    }

    fn set(&mut self, name: Name<'a>, op: SetOp, value: &source::Expr<'a>) -> Stmt {
        let place = name.place;
        let number = self.variable(name);
        let right = self.number(value);
        let left = Expr::Variable { number, place };
        let value = match op {
            SetOp::Becomes => right,
            SetOp::Add => self.sum(SumOp::Add, left, right, place),
            SetOp::Sub => self.sum(SumOp::Sub, left, right, place),
        };
        Stmt::Set {
            number,
            value,
            is_let: false,
            place,
        }
    }

    fn cut(&mut self, at: &source::Expr<'a>, place: Place) -> Stmt {
        self.check_change(place);
        if matches!(self.spot.event, Event::Flush) {
            self.faults.says(place, "a FLUSH has no bytes to cut");
        }
        let at = self.number(at);
        Stmt::Cut { at, place }
    }

    fn log(&mut self, is_conn: bool, text: &source::Text<'a>, place: Place) -> Stmt {
        let (text, at) = self.text(text);
        if 255 < text.len() {
            self.faults
                .says(at, "a text of `log` has at most 255 bytes");
        }
        Stmt::Log {
            is_conn,
            text,
            place,
        }
    }

    /// A statement that is one word.
    fn word(&mut self, word: Plain, place: Place) -> Stmt {
        let wrong = match (word, self.spot.event) {
            (Plain::Pass | Plain::End | Plain::Fail | Plain::Leave, Event::Start) => {
                "` cannot stand in `on start`: nothing can be passed before the first call"
            }
            (Plain::Leave, Event::Eos) => "` cannot stand in `on eos`, where the response ends",
            (Plain::Next, _) if !self.defs.is_empty() => "` cannot stand in a `def`",
            (Plain::Break | Plain::Continue, _) if self.spot.loops == 0 => "` stands in no loop",
            _ => return plain(word, place),
        };
        self.faults
            .says_of(place, &["`", plain_text(word)], b"", wrong);
        plain(word, place)
    }
}
