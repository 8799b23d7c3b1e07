//! The filter that a text spells.

use crate::faults::Faults;
use crate::grammar::event_text;
use crate::matches::{Matches, Own, byte_name};
use crate::patterns::{MAX_BYTES, Patterns};
use crate::place::Place;
use crate::refusal::Refusal;
use crate::scope::{Meaning, Resolver, Spot};
use crate::source;
use crate::source::{Decl, Name, Setting, Source, Trigger};
use crate::stmts::MAX_DEPTH;
use crate::tree::{Event, Filter, Handler, Hold, NumberKind, Stmt, Table};
use std::alloc::Global;
use std::collections::BTreeMap;

/// The name of a declaration.
fn name_of<'a>(decl: &Decl<'a>) -> Name<'a> {
    match decl {
        Decl::Var { name, .. }
        | Decl::Hold { name, .. }
        | Decl::Const { name, .. }
        | Decl::Param { name, .. }
        | Decl::Table { name, .. } => *name,
        Decl::Def(def) => def.name,
    }
}

/// How a handler is written.
fn written(on: &Trigger<'_>) -> &'static str {
    match on {
        Trigger::Event(event) => event_text(*event),
        Trigger::Byte(_) => "byte",
        Trigger::Match(_) => "match",
    }
}

/// Whether two handlers wait for the same.
fn is_same(a: &Trigger<'_>, b: &Trigger<'_>) -> bool {
    match (a, b) {
        (Trigger::Event(a), Trigger::Event(b)) => a == b,
        (Trigger::Byte(_), Trigger::Byte(_)) => true,
        _ => false,
    }
}

/// Which handler is the first that waits for the same.
fn first_same(source: &Source<'_>, on: &Trigger<'_>) -> Option<usize> {
    for (at, handler) in source.handlers.iter().enumerate() {
        if is_same(&handler.on, on) {
            return Some(at);
        }
    }
    None
}

fn has_event(source: &Source<'_>, event: Event) -> bool {
    first_same(source, &Trigger::Event(event)).is_some()
}

/// `on byte`: the name of the byte, and the handler.
fn on_byte<'a, 's>(source: &'s Source<'a>) -> Option<(Name<'a>, &'s source::Handler<'a>)> {
    for handler in &source.handlers {
        if let Trigger::Byte(name) = &handler.on {
            return Some((*name, handler));
        }
    }
    None
}

/// A filter with nothing but a name.
fn empty_filter(alloc: Global, name: Vec<u8>) -> Filter {
    Filter {
        name,
        numbers: Vec::new(alloc),
        lasting: 0,
        holds: Vec::new(alloc),
        tables: Vec::new(alloc),
        handlers: Vec::new(alloc),
        is_by_bytes: false,
        nodes: 0,
    }
}

/// The filter that a tree says, or what is wrong with it first.
pub fn resolve(alloc: Global, source: &Source<'_>) -> Result<Filter, Refusal> {
    let mut faults = Faults::new(alloc);
    let name = faults.copied(source.name);
    let mut resolver = Resolver {
        alloc,
        source,
        filter: empty_filter(alloc, name),
        globals: BTreeMap::new(alloc),
        locals: Vec::new(alloc),
        spot: Spot {
            event: Event::Start,
            is_by_byte: false,
            is_over_it: false,
            loops: 0,
            floor: 0,
            block: 0,
        },
        over: Vec::new(alloc),
        defs: Vec::new(alloc),
        made: 0,
        faults,
    };
    resolver.declare_all();
    resolver.handle_all();
    resolver.faults.outcome(resolver.filter)
}

impl<'a, 's> Resolver<'a, 's> {
    fn declare_all(&mut self) {
        let source = self.source;
        for (at, decl) in source.decls.iter().enumerate() {
            let name = name_of(decl);
            if self.declared_as(name).is_some() {
                self.says_of(name, "` is declared twice");
            }
            let means = self.declared(decl, at);
            if self.globals.insert(name.text, means).is_err() {
                self.faults.no_memory();
            }
        }
    }

    /// What a declaration's name stands for.
    fn declared(&mut self, decl: &Decl<'a>, at: usize) -> Meaning {
        match decl {
            Decl::Var {
                name,
                is_conn,
                value,
            } => self.new_var(*name, *is_conn, value),
            Decl::Hold {
                name,
                is_conn,
                limit,
            } => self.new_hold(*name, *is_conn, limit.as_ref()),
            Decl::Const { value, .. }
            | Decl::Param {
                value: Setting::Number(value),
                ..
            } => Meaning::Constant(self.constant(value)),
            Decl::Param {
                value: Setting::Text(_),
                ..
            } => Meaning::Text(at),
            Decl::Table { name, text } => self.new_table(*name, text),
            Decl::Def(_) => Meaning::Def(at),
        }
    }

    fn new_var(&mut self, name: Name<'a>, is_conn: bool, value: &source::Expr<'a>) -> Meaning {
        let value = self.constant(value);
        let kind = if is_conn {
            NumberKind::Connection(value)
        } else {
            NumberKind::Request(value)
        };
        Meaning::Number(self.new_number(name.text, name.place, kind))
    }

    fn new_hold(
        &mut self,
        name: Name<'a>,
        is_conn: bool,
        limit: Option<&source::Expr<'a>>,
    ) -> Meaning {
        let limit = match limit {
            Some(limit) => Some(self.constant(limit)),
            None => None,
        };
        let hold = self.filter.holds.len();
        let made = Hold {
            name: self.faults.copied(name.text),
            place: name.place,
            is_conn,
            limit,
        };
        self.faults.append(&mut self.filter.holds, made);
        Meaning::Hold(hold)
    }

    fn new_table(&mut self, name: Name<'a>, text: &source::Text<'a>) -> Meaning {
        let (bytes, _) = self.text(text);
        if bytes.is_empty() {
            self.faults.says(name.place, "a table has a byte at least");
        }
        Meaning::Table(self.add_table(name.text, name.place, bytes, false))
    }

    fn add_table(&mut self, name: &[u8], place: Place, bytes: Vec<u8>, is_read: bool) -> usize {
        let table = self.filter.tables.len();
        let made = Table {
            name: self.faults.copied(name),
            place,
            bytes,
            is_read,
        };
        self.faults.append(&mut self.filter.tables, made);
        table
    }

    fn handle_all(&mut self) {
        let source = self.source;
        let matches = self.matches();
        self.filter.lasting = self.filter.numbers.len();
        self.check_handlers();
        for handler in &source.handlers {
            match &handler.on {
                Trigger::Event(event) => self.handle(*event, handler, matches.as_ref()),
                Trigger::Byte(name) => {
                    if matches.is_none() {
                        self.handle_bytes(*name, handler.place, &handler.body);
                    }
                }
                Trigger::Match(_) => {}
            }
        }
        if let Some(matches) = matches {
            self.handle_matches(&matches);
        }
    }

    /// Refuses handlers that stand twice, or do not go together.
    fn check_handlers(&mut self) {
        let source = self.source;
        for (at, handler) in source.handlers.iter().enumerate() {
            if let Some(first) = first_same(source, &handler.on) {
                if first < at {
                    let before = ["`on ", written(&handler.on)];
                    self.faults
                        .says_of(handler.place, &before, b"", "` stands twice");
                    break;
                }
            }
        }
        if let Some((name, handler)) = on_byte(source) {
            if has_event(source, Event::Bucket) {
                let before = "`on byte` and `on bucket` do not go together: write `for byte ";
                let after = " in it` within `on bucket`";
                self.faults
                    .says_of(handler.place, &[before], name.text, after);
            }
        }
    }

    /// Makes a handler for an event.
    fn handle(
        &mut self,
        event: Event,
        handler: &source::Handler<'a>,
        matches: Option<&Matches<'a, 's>>,
    ) {
        self.spot.event = event;
        let mut body = Vec::new(self.alloc);
        if let (Event::Eos, Some(matches)) = (event, matches) {
            if 1 < matches.patterns.count() {
                let place = matches.place;
                let rest = self.match_end(matches);
                self.faults
                    .append(&mut body, Stmt::Block { body: rest, place });
            }
        }
        let made = self.block_of(&handler.body, MAX_DEPTH);
        self.append_all(&mut body, made);
        self.faults
            .append(&mut self.filter.handlers, Handler { event, body });
    }

    /// Makes the loop of `on byte`.
    fn handle_bytes(&mut self, name: Name<'a>, place: Place, body: &[source::Stmt<'a>]) {
        self.enter_bytes();
        let numbers = self.walkers((name, None), place);
        let body = self.block_of(body, MAX_DEPTH);
        self.leave_bytes(numbers, body, place);
    }

    fn enter_bytes(&mut self) {
        self.spot.event = Event::Bucket;
        self.spot.is_by_byte = true;
        self.spot.is_over_it = true;
        self.spot.block = 0;
    }

    fn leave_bytes(&mut self, numbers: (usize, usize), body: Vec<Stmt>, place: Place) {
        self.spot.is_by_byte = false;
        self.spot.is_over_it = false;
        self.locals.truncate(0);
        self.filter.is_by_bytes = true;
        let body = self.only(Stmt::For {
            byte: numbers.0,
            index: numbers.1,
            is_indexed: false,
            over: None,
            is_on_byte: true,
            body,
            place,
        });
        let event = Event::Bucket;
        self.faults
            .append(&mut self.filter.handlers, Handler { event, body });
    }

    /// Makes the loop of `on match`, and what is done with bytes that wait at the EOS.
    fn handle_matches(&mut self, matches: &Matches<'a, 's>) {
        let place = matches.place;
        self.enter_bytes();
        let numbers = self.walkers((byte_name(matches), None), place);
        let body = self.match_body(matches, numbers.0);
        self.leave_bytes(numbers, body, place);
        if !has_event(self.source, Event::Eos) && 1 < matches.patterns.count() {
            let event = Event::Eos;
            self.spot.event = event;
            let body = self.match_end(matches);
            self.faults
                .append(&mut self.filter.handlers, Handler { event, body });
        }
    }

    /// The patterns of the filter, if it waits for any, with the number of their state and their table.
    fn matches(&mut self) -> Option<Matches<'a, 's>> {
        let source = self.source;
        let handlers = self.match_handlers();
        let place = source.handlers.get(*handlers.first()?)?.place;
        let patterns = self.patterns();
        if has_event(source, Event::Bucket) {
            self.faults
                .says(place, "`on match` and `on bucket` do not go together");
        }
        let mut matches = Matches {
            own: self.own_byte(&patterns),
            patterns,
            handlers,
            state: 0,
            table: 0,
            place,
        };
        if 1 < matches.patterns.count() {
            matches.state = self.new_number(b"(state)", place, NumberKind::Request(0));
            if !matches!(matches.own, Own::Text) {
                let bytes = matches.patterns.joined(self.alloc, &mut self.faults);
                matches.table = self.add_table(b"(patterns)", place, bytes, true);
            }
        }
        Some(matches)
    }

    fn match_handlers(&mut self) -> Vec<usize> {
        let source = self.source;
        let mut found = Vec::new(self.alloc);
        for (at, handler) in source.handlers.iter().enumerate() {
            if let Trigger::Match(_) = &handler.on {
                self.faults.append(&mut found, at);
            }
        }
        found
    }

    /// The patterns, each with a byte at least, of which none holds another.
    fn patterns(&mut self) -> Patterns {
        let source = self.source;
        let mut texts = Vec::new(self.alloc);
        let mut places = Vec::new(self.alloc);
        let mut len: usize = 0;
        for handler in &source.handlers {
            if let Trigger::Match(text) = &handler.on {
                let (bytes, place) = self.text(text);
                len = len.saturating_add(bytes.len());
                self.check_pattern(bytes.len(), len, place);
                if self.faults.is_any() {
                    break;
                }
                self.faults.append(&mut texts, bytes);
                self.faults.append(&mut places, place);
            }
        }
        let patterns = Patterns::new(self.alloc, &mut self.faults, texts);
        self.check_patterns(&patterns, &places);
        patterns
    }

    /// Refuses a pattern of no bytes, and one with which there are too many.
    fn check_pattern(&mut self, len: usize, all: usize, place: Place) {
        if len == 0 {
            self.faults.says(place, "a pattern has a byte at least");
        }
        if MAX_BYTES < all {
            self.faults
                .says(place, "all patterns together have at most 255 bytes");
        }
    }

    fn check_patterns(&mut self, patterns: &Patterns, places: &[Place]) {
        for (at, place) in places.iter().enumerate() {
            match patterns.nested(at) {
                Some(true) => self.faults.says(*place, "this pattern stands twice"),
                Some(false) => self.faults.says(
                    *place,
                    "this pattern holds another one, which would always come first",
                ),
                None => {}
            }
        }
    }

    /// What becomes of a byte that is in no match. A loop over a table is shorter than many texts.
    fn own_byte(&self, patterns: &Patterns) -> Own<'a, 's> {
        if let Some((name, handler)) = on_byte(self.source) {
            return Own::Byte(name, &handler.body);
        }
        let mut released: usize = 0;
        for state in 1..patterns.count() {
            released = released.saturating_add(patterns.released(state));
        }
        if 8 < released { Own::Emit } else { Own::Text }
    }
}
