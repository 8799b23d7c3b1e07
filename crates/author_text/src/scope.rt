//! What names mean, and where a statement stands.

use crate::faults::Faults;
use crate::place::Place;
use crate::source::{Name, Source};
use crate::tree::{Event, Filter, Number, NumberKind};
use std::alloc::Global;
use std::collections::BTreeMap;

/// What a name stands for: an index of the filter, of its texts or of the declarations.
#[derive(Clone, Copy)]
pub enum Meaning {
    Number(usize),
    Constant(u32),
    Hold(usize),
    Table(usize),
    Text(usize),
    Def(usize),
}

/// A name, and what it stands for.
#[derive(Clone, Copy)]
pub struct Binding<'a> {
    pub name: &'a [u8],
    pub means: Meaning,
}

/// Where a statement stands.
#[derive(Clone, Copy)]
pub struct Spot {
    /// The event that it waits for.
    pub event: Event,
    /// Whether it stands in `on byte` or `on match`.
    pub is_by_byte: bool,
    /// Whether it stands in a loop over the bytes of `it`.
    pub is_over_it: bool,
    /// How many loops it stands in, out of which it may break.
    pub loops: usize,
    /// Which locals are seen: those from here on.
    pub floor: usize,
    /// Which locals are those of the innermost block: those from here on.
    pub block: usize,
}

/// The filter that is made of a text, and where the statement stands that is made.
#[derive(Drop)]
pub struct Resolver<'a, 's> {
    pub alloc: Global,
    pub source: &'s Source<'a>,
    pub filter: Filter,
    /// What each name stands for that was declared so far.
    pub globals: BTreeMap<&'a [u8], Meaning>,
    pub locals: Vec<Binding<'a>>,
    pub spot: Spot,
    /// The holds over whose bytes loops go that it stands in.
    pub over: Vec<usize>,
    /// The `def`s that it stands in.
    pub defs: Vec<usize>,
    /// How many statements were made.
    pub made: usize,
    pub faults: Faults,
}

/// What the last binding of this name stands for, of those from `start` on.
pub fn meaning_in(bindings: &[Binding<'_>], start: usize, name: &[u8]) -> Option<Meaning> {
    let mut found = None;
    for at in start..bindings.len() {
        if bindings[at].name == name {
            found = Some(bindings[at].means);
        }
    }
    found
}

impl<'a, 's> Resolver<'a, 's> {
    /// What is wrong with a name, which these words follow.
    pub fn says_of(&mut self, name: Name<'a>, what: &str) {
        self.faults.says_of(name.place, &["`"], name.text, what);
    }

    /// What a name was declared as, if it was.
    pub fn declared_as(&self, name: Name<'a>) -> Option<Meaning> {
        self.globals.get(&name.text).copied()
    }

    /// What a name stands for.
    pub fn find(&mut self, name: Name<'a>) -> Option<Meaning> {
        let local = meaning_in(&self.locals, self.spot.floor, name.text);
        if local.is_some() {
            return local;
        }
        let global = self.declared_as(name);
        if global.is_none() {
            self.says_of(name, "` is not declared");
        }
        global
    }

    /// The hold of this name.
    pub fn hold(&mut self, name: Name<'a>) -> usize {
        match self.find(name) {
            Some(Meaning::Hold(hold)) => hold,
            _ => {
                self.says_of(name, "` is no hold");
                0
            }
        }
    }

    /// The hold of this name, which no loop around goes over.
    pub fn changed_hold(&mut self, name: Name<'a>) -> usize {
        let hold = self.hold(name);
        if self.over.contains(&hold) {
            self.says_of(name, "` may not be changed in a loop over its bytes");
        }
        hold
    }

    /// Lets a name of the innermost block stand for this, which is declared for what is a number, or not at all.
    pub fn bind(&mut self, name: Name<'a>, means: Meaning) {
        match self.declared_as(name) {
            None | Some(Meaning::Number(_) | Meaning::Constant(_)) => {}
            Some(_) => self.says_of(name, "` is declared twice"),
        }
        self.bind_param(name, means);
    }

    /// Lets a name of the innermost block stand for this.
    pub fn bind_param(&mut self, name: Name<'a>, means: Meaning) {
        if meaning_in(&self.locals, self.spot.block, name.text).is_some() {
            self.says_of(name, "` is declared twice");
        }
        let binding = Binding {
            name: name.text,
            means,
        };
        self.faults.append(&mut self.locals, binding);
    }

    /// A number that the filter has from now on.
    pub fn new_number(&mut self, name: &[u8], place: Place, kind: NumberKind) -> usize {
        let number = self.filter.numbers.len();
        let name = self.faults.copied(name);
        let made = Number { name, place, kind };
        self.faults.append(&mut self.filter.numbers, made);
        number
    }

    /// The number of a node of its own.
    pub fn new_node(&mut self) -> usize {
        let node = self.filter.nodes;
        self.filter.nodes = node.saturating_add(1);
        node
    }

    /// Refuses `it` where there is none.
    pub fn check_it(&mut self, place: Place) {
        let is_known = match self.spot.event {
            Event::Bucket => !self.spot.is_by_byte,
            Event::Flush => true,
            _ => false,
        };
        if !is_known {
            self.faults
                .says(place, "`it` is known in `on bucket` and `on flush` alone");
        }
    }

    /// Refuses to give `it` away, or to cut it, where that may not be.
    pub fn check_change(&mut self, place: Place) {
        self.check_it(place);
        if self.spot.is_over_it {
            self.faults.says(
                place,
                "`it` may not be given away or cut in a loop over its bytes",
            );
        }
    }
}
