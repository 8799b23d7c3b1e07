//! A `def` where it runs.

use crate::numbers::place_of;
use crate::scope::{Meaning, Resolver, Spot};
use crate::source;
use crate::source::{Decl, Def, Name};
use crate::tree::{Expr, Number, NumberKind, Stmt};
use std::collections::BTreeSet;

/// How deep blocks and `def`s are looked through for what they set.
const MAX_DEPTH: usize = 1024;

/// The names that a block sets, and the `def`s that were looked through for them.
#[derive(Drop)]
struct Changes<'a> {
    names: Vec<&'a [u8]>,
    seen: BTreeSet<usize>,
    is_whole: bool,
}

impl<'a> Changes<'a> {
    fn add_name(&mut self, name: &'a [u8]) {
        if self.names.push(name).is_err() {
            self.is_whole = false;
        }
    }

    /// Notes that a `def` is looked through; whether it was not before.
    fn is_new(&mut self, at: usize) -> bool {
        if self.seen.contains(&at) {
            return false;
        }
        if self.seen.insert(at).is_err() {
            self.is_whole = false;
        }
        true
    }

    fn contains(&self, name: &[u8]) -> bool {
        for found in &self.names {
            if *found == name {
                return true;
            }
        }
        false
    }
}

impl<'a, 's> Resolver<'a, 's> {
    /// Adds the names that a block sets, and the `def`s that it runs add theirs, each once.
    #[cycle(sets)]
    fn add_set(&self, changes: &mut Changes<'a>, body: &[source::Stmt<'a>], depth: usize) {
        if depth == 0 {
            return;
        }
        let below = depth - 1;
        for stmt in body {
            match stmt {
                source::Stmt::Set { name, .. } => changes.add_name(name.text),
                source::Stmt::Run { name, .. } => self.add_run(changes, *name, below),
                source::Stmt::If { then, other, .. } => {
                    self.add_set(changes, then, below);
                    self.add_set(changes, other, below);
                }
                source::Stmt::While { body, .. } | source::Stmt::For { body, .. } => {
                    self.add_set(changes, body, below);
                }
                _ => {}
            }
        }
    }

    /// Adds what the `def` of this name sets, unless it was seen.
    #[cycle(sets)]
    fn add_run(&self, changes: &mut Changes<'a>, name: Name<'a>, depth: usize) {
        if depth == 0 {
            return;
        }
        let source = self.source;
        if let Some(Meaning::Def(at)) = self.declared_as(name) {
            if changes.is_new(at) {
                if let Some(Decl::Def(def)) = source.decls.get(at) {
                    self.add_set(changes, &def.body, depth - 1);
                }
            }
        }
    }

    /// A `def` in place of the statement that runs it.
    #[cycle(resolve)]
    pub fn run(&mut self, name: Name<'a>, args: &[source::Expr<'a>], depth: usize) -> Stmt {
        let place = name.place;
        if depth == 0 {
            return self.no_stmt(place, "too much stands in one another here");
        }
        let Some((at, def)) = self.def(name) else {
            return Stmt::Fail { place };
        };
        self.check_args(name, args.len(), def.params.len());
        let values = self.values(args);
        if self.faults.is_any() {
            return Stmt::Fail { place };
        }
        let body = self.enter(at, def, values, depth - 1);
        self.faults.in_def(place.line);
        Stmt::Block { body, place }
    }

    /// The values of arguments.
    fn values(&mut self, args: &[source::Expr<'a>]) -> Vec<Expr> {
        let mut values = Vec::new(self.alloc);
        for arg in args {
            let value = self.number(arg);
            self.faults.append(&mut values, value);
        }
        values
    }

    /// The `def` of this name, in which the statement does not stand.
    fn def(&mut self, name: Name<'a>) -> Option<(usize, &'s Def<'a>)> {
        let source = self.source;
        if let Some(Meaning::Def(at)) = self.find(name) {
            if self.defs.contains(&at) {
                self.says_of(name, "` runs itself");
            }
            if let Some(Decl::Def(def)) = source.decls.get(at) {
                return Some((at, def));
            }
        }
        self.says_of(name, "` is no `def`");
        None
    }

    fn check_args(&mut self, name: Name<'a>, count: usize, due: usize) {
        if count != due {
            let said = if due == 1 {
                format!(in self.alloc; "` takes 1 number, not {count}")
            } else {
                format!(in self.alloc; "` takes {due} numbers, not {count}")
            };
            match said {
                Ok(what) => self.says_of(name, what.as_str()),
                Err(_) => self.faults.no_memory(),
            }
        }
    }

    /// The body of a `def`, behind the statements that set its parameters.
    #[cycle(resolve)]
    fn enter(&mut self, at: usize, def: &Def<'a>, values: Vec<Expr>, depth: usize) -> Vec<Stmt> {
        if depth == 0 {
            self.faults
                .says(def.name.place, "too much stands in one another here");
            return Vec::new(self.alloc);
        }
        let outer = self.spot;
        let mark = self.locals.len();
        self.spot = Spot {
            floor: mark,
            block: mark,
            loops: 0,
            ..outer
        };
        self.faults.append(&mut self.defs, at);
        let mut made = self.params(def, values);
        let body = self.block_of(&def.body, depth - 1);
        if made.extend(body).is_err() {
            self.faults.no_memory();
        }
        self.defs.pop();
        self.locals.truncate(mark);
        self.spot = outer;
        made
    }

    /// Lets the parameters stand for their values, and sets those that have a number of their own.
    fn params(&mut self, def: &Def<'a>, values: Vec<Expr>) -> Vec<Stmt> {
        let changes = self.changes(def);
        let mut made = Vec::new(self.alloc);
        for (name, value) in def.params.iter().zip(values) {
            match self.stands_for(*name, &value, &changes) {
                Some(means) => self.bind_param(*name, means),
                None => {
                    let stmt = self.set_param(*name, value);
                    self.faults.append(&mut made, stmt);
                }
            }
        }
        made
    }

    /// What the body of a `def` sets, where it has a parameter.
    fn changes(&mut self, def: &Def<'a>) -> Changes<'a> {
        let mut changes = Changes {
            names: Vec::new(self.alloc),
            seen: BTreeSet::new(self.alloc),
            is_whole: true,
        };
        if !def.params.is_empty() {
            self.add_set(&mut changes, &def.body, MAX_DEPTH);
        }
        if !changes.is_whole {
            self.faults.no_memory();
        }
        changes
    }

    /// What a parameter stands for, unless it needs a number of its own.
    fn stands_for(&self, name: Name<'a>, value: &Expr, changes: &Changes<'a>) -> Option<Meaning> {
        if changes.contains(name.text) {
            return None;
        }
        match value {
            Expr::Constant { value, .. } => Some(Meaning::Constant(*value)),
            Expr::Variable { number, .. } => match self.filter.numbers.get(*number) {
                None
                | Some(
                    Number {
                        kind: NumberKind::Index,
                        ..
                    },
                ) => None,
                Some(found) if changes.contains(found.name.as_slice()) => None,
                Some(_) => Some(Meaning::Number(*number)),
            },
            _ => None,
        }
    }

    fn set_param(&mut self, name: Name<'a>, value: Expr) -> Stmt {
        let number = self.new_number(name.text, name.place, NumberKind::Local);
        self.bind_param(name, Meaning::Number(number));
        let place = place_of(&value);
        Stmt::Set {
            number,
            value,
            is_let: true,
            place,
        }
    }
}
