//! `on match`, made a loop over bytes with a state: how much of a pattern stands there. What stood there and is in no match
//! goes through `on byte`, or is emitted.

use crate::escape::front;
use crate::patterns::{Next, Patterns};
use crate::place::Place;
use crate::scope::{Meaning, Resolver};
use crate::source;
use crate::source::Name;
use crate::stmts::MAX_DEPTH;
use crate::tree::{Comparison, Cond, Expr, NumberKind, Stmt, SumOp, Thing};

/// What becomes of a byte that is in no match.
#[derive(Clone, Copy)]
pub enum Own<'a, 's> {
    /// It is emitted, in texts where some were waited for.
    Text,
    /// It is emitted by itself.
    Emit,
    /// The author's `on byte`, with the name of its byte.
    Byte(Name<'a>, &'s [source::Stmt<'a>]),
}

/// The patterns of a filter, and what is done with them.
#[derive(Drop)]
pub struct Matches<'a, 's> {
    pub patterns: Patterns,
    /// The handlers of the patterns, among those of the text.
    pub handlers: Vec<usize>,
    pub own: Own<'a, 's>,
    /// The number of the state, and the table of the patterns.
    pub state: usize,
    pub table: usize,
    pub place: Place,
}

/// The name of the byte of the loop over bytes.
pub fn byte_name<'a>(matches: &Matches<'a, '_>) -> Name<'a> {
    match matches.own {
        Own::Byte(name, _) => name,
        Own::Text | Own::Emit => Name {
            text: b"(byte)",
            place: matches.place,
        },
    }
}

/// The numbers of the loop that releases bytes.
#[derive(Clone, Copy)]
struct Release {
    byte: usize,
    at: usize,
    to: usize,
}

fn constant(value: usize, place: Place) -> Expr {
    Expr::Constant {
        value: u32::try_from(value).unwrap_or(u32::MAX),
        place,
    }
}

fn set(number: usize, value: usize, is_let: bool, place: Place) -> Stmt {
    Stmt::Set {
        number,
        value: constant(value, place),
        is_let,
        place,
    }
}

/// A choice by whether a number has this value.
fn choice(number: usize, value: usize, then: Vec<Stmt>, other: Vec<Stmt>, place: Place) -> Stmt {
    Stmt::If {
        test: Cond::Compare {
            op: Comparison::Equal,
            left: Expr::Variable { number, place },
            right: constant(value, place),
        },
        then,
        other,
        place,
    }
}

impl<'a, 's> Resolver<'a, 's> {
    /// A list of one statement.
    pub fn only(&mut self, stmt: Stmt) -> Vec<Stmt> {
        let mut list = Vec::new(self.alloc);
        self.faults.append(&mut list, stmt);
        list
    }

    /// The body of the loop over bytes.
    pub fn match_body(&mut self, matches: &Matches<'a, 's>, byte: usize) -> Vec<Stmt> {
        let place = matches.place;
        let first = self.step(matches, 0, Release { byte, at: 0, to: 0 });
        if matches.patterns.count() <= 1 {
            return first;
        }
        let none = Vec::new(self.alloc);
        let mut body = self.only(choice(matches.state, 0, first, none, place));
        let release = self.release(matches, Some(byte), &mut body);
        let chain = self.chain_of(matches, release);
        self.append_all(&mut body, chain);
        self.faults.append(&mut body, Stmt::Unread { place });
        self.push_release(matches, release, false, &mut body);
        body
    }

    pub fn append_all(&mut self, list: &mut Vec<Stmt>, behind: Vec<Stmt>) {
        if list.extend(behind).is_err() {
            self.faults.no_memory();
        }
    }

    /// The numbers of the loop that releases bytes, which `body` sets first where there is such a loop.
    fn release(
        &mut self,
        matches: &Matches<'a, 's>,
        byte: Option<usize>,
        body: &mut Vec<Stmt>,
    ) -> Release {
        let place = matches.place;
        let state = matches.state;
        if let Own::Text = matches.own {
            return Release {
                byte: byte.unwrap_or(state),
                at: state,
                to: state,
            };
        }
        let at = self.new_number(b"(at)", place, NumberKind::Local);
        let to = self.new_number(b"(to)", place, NumberKind::Local);
        self.faults.append(body, set(at, 0, true, place));
        self.faults.append(body, set(to, 0, true, place));
        let byte = match byte {
            Some(byte) => byte,
            None => self.new_number(byte_name(matches).text, place, NumberKind::Local),
        };
        Release { byte, at, to }
    }

    /// What is done in each state but the first.
    fn chain_of(&mut self, matches: &Matches<'a, 's>, release: Release) -> Vec<Stmt> {
        let mut chain = Vec::new(self.alloc);
        for state in (1..matches.patterns.count()).rev() {
            let then = self.step(matches, state, release);
            chain = if chain.is_empty() {
                then
            } else {
                self.only(choice(matches.state, state, then, chain, matches.place))
            };
        }
        chain
    }

    /// What is done with a byte in a state: where it goes on with a pattern it is taken, and else it is a miss.
    fn step(&mut self, matches: &Matches<'a, 's>, state: usize, release: Release) -> Vec<Stmt> {
        let mut made = self.miss(matches, state, release);
        for byte in (0..=255u8).rev() {
            if let Some(next) = matches.patterns.next(state, byte) {
                let then = self.taken(matches, state, next);
                let byte = usize::from(byte);
                made = self.only(choice(release.byte, byte, then, made, matches.place));
            }
        }
        made
    }

    /// What is done with a byte that goes on with a pattern.
    fn taken(&mut self, matches: &Matches<'a, 's>, state: usize, next: Next) -> Vec<Stmt> {
        let place = matches.place;
        let mut made = Vec::new(self.alloc);
        match next {
            Next::State(next) => {
                self.faults
                    .append(&mut made, set(matches.state, next, false, place));
            }
            Next::Hit(pattern) => {
                if state != 0 {
                    self.faults
                        .append(&mut made, set(matches.state, 0, false, place));
                }
                let stmt = self.matched(matches, pattern);
                self.faults.append(&mut made, stmt);
            }
        }
        self.faults.append(&mut made, Stmt::Next { place });
        made
    }

    /// What the author does where a pattern stands: nothing of the loop is seen there.
    fn matched(&mut self, matches: &Matches<'a, 's>, pattern: usize) -> Stmt {
        let place = matches.place;
        let source = self.source;
        let at = matches.handlers.get(pattern).copied().unwrap_or(0);
        let floor = self.spot.floor;
        self.spot.floor = self.locals.len();
        let made = match source.handlers.get(at) {
            Some(handler) => self.once(handler.body.as_slice(), place),
            None => Stmt::Next { place },
        };
        self.spot.floor = floor;
        made
    }

    /// What is done with a byte that goes on with no pattern. In state 0 it is in no match. Else what stood there is
    /// released as far as it goes on with none, and the byte comes again.
    fn miss(&mut self, matches: &Matches<'a, 's>, state: usize, release: Release) -> Vec<Stmt> {
        let place = matches.place;
        let mut made = Vec::new(self.alloc);
        if state == 0 {
            let own = self.own(matches, release.byte);
            self.faults.append(&mut made, own);
            self.faults.append(&mut made, Stmt::Next { place });
        } else {
            let len = matches.patterns.released(state);
            self.push_released(
                matches,
                front(matches.patterns.bytes(state), len),
                release,
                &mut made,
            );
            let back = matches.patterns.fallback(state);
            self.faults
                .append(&mut made, set(matches.state, back, false, place));
        }
        made
    }

    /// Adds that these bytes are released: a text, or the range of the table for the loop behind.
    fn push_released(
        &mut self,
        matches: &Matches<'a, 's>,
        bytes: &[u8],
        release: Release,
        made: &mut Vec<Stmt>,
    ) {
        let place = matches.place;
        if bytes.is_empty() {
            return;
        }
        if let Own::Text = matches.own {
            let thing = Thing::Text(self.faults.copied(bytes));
            let to = None;
            self.faults.append(made, Stmt::Put { thing, to, place });
            return;
        }
        let start = matches.patterns.start(bytes);
        let end = start.saturating_add(bytes.len());
        self.faults
            .append(made, set(release.at, start, false, place));
        self.faults.append(made, set(release.to, end, false, place));
    }

    /// What becomes of a byte that is in no match.
    fn own(&mut self, matches: &Matches<'a, 's>, byte: usize) -> Stmt {
        let place = matches.place;
        if let Own::Byte(_, body) = matches.own {
            return self.once(body, place);
        }
        let value = Expr::Variable {
            number: byte,
            place,
        };
        let node = self.new_node();
        let put = Stmt::Put {
            thing: Thing::Byte { value, node },
            to: None,
            place,
        };
        if let Own::Emit = matches.own {
            let body = self.only(put);
            return Stmt::Once { body, place };
        }
        put
    }

    /// The author's statements, out of which `next` leads to what follows.
    fn once(&mut self, body: &[source::Stmt<'a>], place: Place) -> Stmt {
        let loops = self.spot.loops;
        self.spot.loops = 0;
        let body = self.block_of(body, MAX_DEPTH);
        self.spot.loops = loops;
        Stmt::Once { body, place }
    }

    /// Adds the loop that releases bytes, whose byte comes into being in it where it `is_fresh`.
    fn push_release(
        &mut self,
        matches: &Matches<'a, 's>,
        release: Release,
        is_fresh: bool,
        made: &mut Vec<Stmt>,
    ) {
        if let Own::Text = matches.own {
            return;
        }
        let place = matches.place;
        let Release { byte, at, to } = release;
        let mut body = self.look_at(matches, release, is_fresh);
        let own = self.own(matches, byte);
        self.faults.append(&mut body, own);
        let left = Expr::Variable { number: at, place };
        let value = self.sum(SumOp::Add, left, constant(1, place), place);
        self.faults.append(
            &mut body,
            Stmt::Set {
                number: at,
                value,
                is_let: false,
                place,
            },
        );
        let test = Cond::Compare {
            op: Comparison::Less,
            left: Expr::Variable { number: at, place },
            right: Expr::Variable { number: to, place },
        };
        self.faults.append(
            made,
            Stmt::While {
                test: Some(test),
                body,
                place,
            },
        );
    }

    /// The byte of the table that is released next.
    fn look_at(&mut self, matches: &Matches<'a, 's>, release: Release, is_let: bool) -> Vec<Stmt> {
        let place = matches.place;
        let node = self.new_node();
        let index = Expr::Variable {
            number: release.at,
            place,
        };
        let value = match self.faults.boxed(index) {
            Some(index) => Expr::Look {
                table: matches.table,
                index,
                node,
                place,
            },
            None => constant(0, place),
        };
        self.only(Stmt::Set {
            number: release.byte,
            value,
            is_let,
            place,
        })
    }

    /// What is done with the bytes that wait when the EOS comes.
    pub fn match_end(&mut self, matches: &Matches<'a, 's>) -> Vec<Stmt> {
        let place = matches.place;
        let mut body = Vec::new(self.alloc);
        if matches.patterns.count() <= 1 {
            return body;
        }
        let release = self.release(matches, None, &mut body);
        let chain = self.rest_of(matches, release);
        if let Own::Text = matches.own {
            return chain;
        }
        self.append_all(&mut body, chain);
        let mark = self.locals.len();
        if let Own::Byte(name, _) = matches.own {
            self.spot.block = mark;
            self.bind(name, Meaning::Number(release.byte));
        }
        self.push_release(matches, release, true, &mut body);
        self.locals.truncate(mark);
        let none = Vec::new(self.alloc);
        self.only(choice(matches.state, 0, none, body, place))
    }

    /// What is done in each state but the first when the EOS comes: its bytes are released.
    fn rest_of(&mut self, matches: &Matches<'a, 's>, release: Release) -> Vec<Stmt> {
        let mut chain = Vec::new(self.alloc);
        for state in (1..matches.patterns.count()).rev() {
            let mut then = Vec::new(self.alloc);
            self.push_released(matches, matches.patterns.bytes(state), release, &mut then);
            chain = self.only(choice(matches.state, state, then, chain, matches.place));
        }
        chain
    }
}
