//! Between which numbers an expression lies. How many instructions some code has rests on it.
//!
//! What is found is right in every run. Where it would take too long to find, nothing is known.

use crate::range::Range;
use author_text::tree::{Cond, Expr, Filter, NumberKind, Stmt, Thing};
use std::alloc::{AllocError, Global};
use std::mem;

/// The ranges of all numbers of a filter; none where control does not come.
type Env = Option<Vec<Range>>;

/// How many statements are gone through at most, over all rounds.
const MOST_STEPS: usize = 200_000;

/// How many rounds are made at most.
const MOST_ROUNDS: usize = 64;

/// What is known so far.
#[derive(Drop)]
struct Ranges {
    alloc: Global,
    /// How large the operand of each node can be.
    highest: Vec<u32>,
    /// The largest byte of each table.
    largest: Vec<u32>,
    /// The numbers that last, where a handler begins.
    lasting: Vec<Range>,
    /// Where the innermost loop is left by `break`, and where its next turn begins by `continue`.
    breaks: Env,
    continues: Env,
    /// Where `next` leads.
    next: Env,
    /// Whether a hold has a limit, so that a `keep` may fail.
    has_limits: bool,
    /// How many statements may yet be gone through.
    steps: usize,
    /// Whether there was no memory.
    is_failed: bool,
}

fn largest_bytes(alloc: Global, filter: &Filter) -> Result<Vec<u32>, AllocError> {
    let mut largest = Vec::new(alloc);
    for table in &filter.tables {
        let mut most = 0;
        for byte in &table.bytes {
            most = u32::from(*byte).max(most);
        }
        largest.push(most)?;
    }
    Ok(largest)
}

fn first_ranges(alloc: Global, filter: &Filter) -> Result<Vec<Range>, AllocError> {
    let mut ranges = Vec::new(alloc);
    for number in &filter.numbers {
        ranges.push(match number.kind {
            NumberKind::Request(value) | NumberKind::Connection(value) => Range::only(value),
            NumberKind::Local | NumberKind::Index => Range::ALL,
        })?;
    }
    Ok(ranges)
}

/// How large the operands of a filter's nodes can be.
pub(crate) fn highest_of(alloc: Global, filter: &Filter) -> Result<Vec<u32>, AllocError> {
    let mut has_limits = false;
    for hold in &filter.holds {
        has_limits = has_limits || hold.limit.is_some();
    }
    let mut ranges = Ranges {
        alloc,
        highest: vec![in alloc; 0; filter.nodes]?,
        largest: largest_bytes(alloc, filter)?,
        lasting: first_ranges(alloc, filter)?,
        breaks: None,
        continues: None,
        next: None,
        has_limits,
        steps: MOST_STEPS,
        is_failed: false,
    };
    if ranges.are_found(filter) {
        return Ok(ranges.highest);
    }
    if ranges.is_failed {
        return Err(AllocError);
    }
    vec![in alloc; u32::MAX; filter.nodes]
}

/// Where ways meet.
fn joined(left: Env, right: Env) -> Env {
    let (mut left, right) = match (left, right) {
        (Some(left), Some(right)) => (left, right),
        (Some(left), None) => return Some(left),
        (None, right) => return right,
    };
    widen(left.as_mut_slice(), right.as_slice());
    Some(left)
}

/// Ranges with what others have.
fn widen(ranges: &mut [Range], others: &[Range]) {
    for (place, range) in ranges.iter_mut().enumerate() {
        if let Some(other) = others.get(place) {
            *range = range.with(*other);
        }
    }
}

/// Ranges that grew out of old ones, grown further.
fn widen_from(old: &[Range], ranges: &mut [Range]) {
    for (place, range) in ranges.iter_mut().enumerate() {
        if let Some(old) = old.get(place) {
            *range = old.widened_to(*range);
        }
    }
}

/// The range of a number.
fn range_at(env: &[Range], number: usize) -> Range {
    match env.get(number) {
        Some(range) => *range,
        None => Range::ALL,
    }
}

/// With another range of a number; none where there is none.
fn narrow(mut env: Vec<Range>, number: usize, range: Option<Range>) -> Env {
    let range = range?;
    if let Some(place) = env.get_mut(number) {
        *place = range;
    }
    Some(env)
}

impl Ranges {
    /// Goes through all handlers until nothing new is found. Whether it came to that.
    fn are_found(&mut self, filter: &Filter) -> bool {
        for round in 0..MOST_ROUNDS {
            let Some(before) = self.copy_of_lasting() else {
                return false;
            };
            for handler in &filter.handlers {
                self.handler(handler.body.as_slice());
            }
            if self.steps == 0 || self.is_failed {
                return false;
            }
            if self.lasting.as_slice() == before.as_slice() {
                return true;
            }
            if 3 <= round {
                widen_from(before.as_slice(), self.lasting.as_mut_slice());
            }
        }
        false
    }

    fn copy_of_lasting(&mut self) -> Env {
        match self.lasting.clone() {
            Ok(ranges) => Some(ranges),
            Err(_) => {
                self.is_failed = true;
                None
            }
        }
    }

    /// Another copy of some ranges.
    fn copy(&mut self, env: &[Range]) -> Env {
        match Vec::from_slice(self.alloc, env) {
            Ok(ranges) => Some(ranges),
            Err(_) => {
                self.is_failed = true;
                None
            }
        }
    }

    fn handler(&mut self, body: &[Stmt]) {
        self.next = None;
        let env = self.copy_of_lasting();
        let end = self.block(body, env);
        let next = mem::replace(&mut self.next, None);
        self.leave(&end);
        self.leave(&next);
    }

    /// The handler may be left here: the next one begins with these numbers.
    fn leave(&mut self, env: &Env) {
        if let Some(env) = env {
            widen(self.lasting.as_mut_slice(), env.as_slice());
        }
    }

    // ---- expressions

    fn note(&mut self, node: usize, range: Range) {
        if let Some(highest) = self.highest.get_mut(node) {
            *highest = (*highest).max(range.high);
        }
    }

    /// Between which numbers an expression lies.
    fn range(&mut self, expr: &Expr, env: &[Range]) -> Range {
        match expr {
            Expr::Constant { value, .. } => Range::only(*value),
            Expr::Variable { number, .. } => range_at(env, *number),
            Expr::Look {
                table,
                index,
                node,
                ..
            } => {
                let index = self.range(index, env);
                self.note(*node, index);
                match self.largest.get(*table) {
                    Some(largest) => Range::up_to(*largest),
                    None => Range::ALL,
                }
            }
            Expr::Size { .. } => Range::ALL,
            Expr::Sum {
                op,
                left,
                right,
                ..
            } => {
                let left = self.range(left, env);
                let right = self.range(right, env);
                Range::of_sum(*op, left, right)
            }
            Expr::Scale {
                op,
                left,
                by,
                node,
                ..
            } => {
                let left = self.range(left, env);
                self.note(*node, left);
                Range::of_scale(*op, left, *by)
            }
        }
    }

    // ---- conditions

    /// The ranges where a condition is so.
    #[cycle(refining)]
    fn refine(&mut self, test: &Cond, env: Env, sense: bool) -> Env {
        let ranges = env?;
        match test {
            Cond::Known(known) => { if *known == sense { Some(ranges) } else { None } }
            Cond::Not(test) => self.refine(test, Some(ranges), !sense),
            Cond::And(_, _) | Cond::Or(_, _) => self.refine_both(test, ranges, sense),
            Cond::Empty { .. } => Some(ranges),
            Cond::Has { size, .. } => {
                let _size = self.range(size, ranges.as_slice());
                Some(ranges)
            }
            Cond::Compare { op, left, right } => {
                let lies = self.range(left, ranges.as_slice());
                let _right = self.range(right, ranges.as_slice());
                match (left, right) {
                    (Expr::Variable { number, .. }, Expr::Constant { value, .. }) => {
                        narrow(ranges, *number, lies.compared(*op, *value, sense))
                    }
                    _ => Some(ranges),
                }
            }
        }
    }

    /// The ranges where both parts are so, or one of them is.
    #[cycle(refining)]
    fn refine_both(&mut self, test: &Cond, ranges: Vec<Range>, sense: bool) -> Env {
        let (left, right, is_and) = match test {
            Cond::And(left, right) => (left, right, true),
            Cond::Or(left, right) => (left, right, false),
            _ => return Some(ranges),
        };
        let again = self.copy(ranges.as_slice());
        let first = self.refine(left, Some(ranges), sense);
        if is_and == sense {
            return self.refine(right, first, sense);
        }
        let other = self.refine(left, again, !sense);
        let second = self.refine(right, other, sense);
        joined(first, second)
    }

    // ---- statements

    #[cycle(ranging)]
    fn block(&mut self, body: &[Stmt], env: Env) -> Env {
        let mut env = env;
        for stmt in body {
            match env {
                Some(ranges) => env = self.stmt(stmt, ranges),
                None => return None,
            }
        }
        env
    }

    #[cycle(ranging)]
    fn stmt(&mut self, stmt: &Stmt, env: Vec<Range>) -> Env {
        self.steps = self.steps.saturating_sub(1);
        if self.steps == 0 || self.is_failed {
            return None;
        }
        match stmt {
            Stmt::If {
                test,
                then,
                other,
                ..
            } => {
                let again = self.copy(env.as_slice());
                let holds = self.refine(test, again, true);
                let fails = self.refine(test, Some(env), false);
                let first = self.block(then.as_slice(), holds);
                let second = self.block(other.as_slice(), fails);
                joined(first, second)
            }
            Stmt::While { .. } | Stmt::For { .. } => self.looped(stmt, env),
            Stmt::Block { body, .. } => self.block(body.as_slice(), Some(env)),
            Stmt::Once { body, .. } => self.once(body.as_slice(), Some(env)),
            _ => self.simple(stmt, env),
        }
    }

    /// A statement in which no other stands.
    fn simple(&mut self, stmt: &Stmt, env: Vec<Range>) -> Env {
        match stmt {
            Stmt::Set { number, value, .. } => {
                let range = self.range(value, env.as_slice());
                narrow(env, *number, Some(range))
            }
            Stmt::Put { thing, to, .. } => {
                self.put(thing, env.as_slice());
                let env = Some(env);
                if self.has_limits && to.is_some() {
                    self.leave(&env);
                }
                env
            }
            Stmt::Cut { at, .. } => {
                let _at = self.range(at, env.as_slice());
                Some(env)
            }
            _ => self.way(stmt, Some(env)),
        }
    }

    /// A statement that says where control goes on.
    fn way(&mut self, stmt: &Stmt, env: Env) -> Env {
        match stmt {
            Stmt::Break { .. } => {
                let others = mem::replace(&mut self.breaks, None);
                self.breaks = joined(others, env);
                None
            }
            Stmt::Continue { .. } => {
                let others = mem::replace(&mut self.continues, None);
                self.continues = joined(others, env);
                None
            }
            Stmt::Next { .. } => {
                let others = mem::replace(&mut self.next, None);
                self.next = joined(others, env);
                None
            }
            Stmt::End { .. } | Stmt::Fail { .. } | Stmt::Leave { .. } => {
                self.leave(&env);
                None
            }
            Stmt::Pass { .. } => {
                self.leave(&env);
                env
            }
            _ => env,
        }
    }

    fn put(&mut self, thing: &Thing, env: &[Range]) {
        match thing {
            Thing::Text(_) | Thing::It { .. } | Thing::Whole { .. } => {}
            Thing::Part { size, .. } => {
                let _size = self.range(size, env);
            }
            Thing::Decimal { value, node } | Thing::Byte { value, node } => {
                let range = self.range(value, env);
                self.note(*node, range);
            }
        }
    }

    #[cycle(ranging)]
    fn once(&mut self, body: &[Stmt], env: Env) -> Env {
        let outer = mem::replace(&mut self.next, None);
        let end = self.block(body, env);
        let next = mem::replace(&mut self.next, outer);
        joined(end, next)
    }

    // ---- loops

    #[cycle(ranging)]
    fn looped(&mut self, stmt: &Stmt, env: Vec<Range>) -> Env {
        let breaks = mem::replace(&mut self.breaks, None);
        let continues = mem::replace(&mut self.continues, None);
        let mut head = env;
        let mut out = None;
        let mut is_found = false;
        for round in 0..MOST_ROUNDS {
            let Some(grown) = self.turned(stmt, head.as_slice()) else {
                break;
            };
            let (mut new, left) = grown;
            if new.as_slice() == head.as_slice() {
                out = left;
                is_found = true;
                break;
            }
            if 2 <= round {
                widen_from(head.as_slice(), new.as_mut_slice());
            }
            head = new;
        }
        if !is_found {
            self.steps = 0;
        }
        self.breaks = breaks;
        self.continues = continues;
        out
    }

    /// One turn of a loop: the ranges at the next one's head, and where the loop is left.
    #[cycle(ranging)]
    fn turned(&mut self, stmt: &Stmt, head: &[Range]) -> Option<(Vec<Range>, Env)> {
        self.breaks = None;
        self.continues = None;
        let (end, out) = self.turn(stmt, head);
        let continues = mem::replace(&mut self.continues, None);
        let breaks = mem::replace(&mut self.breaks, None);
        let again = self.copy(head);
        let new = joined(again, joined(end, continues))?;
        Some((new, joined(out, breaks)))
    }

    /// The ranges at the end of a turn, and where the loop ends at its head.
    #[cycle(ranging)]
    fn turn(&mut self, stmt: &Stmt, head: &[Range]) -> (Env, Env) {
        let inner = self.copy(head);
        let again = self.copy(head);
        match stmt {
            Stmt::While {
                test: Some(test),
                body,
                ..
            } => {
                let inner = self.refine(test, inner, true);
                let end = self.block(body.as_slice(), inner);
                (end, self.refine(test, again, false))
            }
            Stmt::While { body, .. } => (self.block(body.as_slice(), inner), None),
            Stmt::For {
                byte,
                index,
                is_on_byte,
                body,
                ..
            } => {
                self.leave(&inner);
                let inner = bytes_from(inner, *byte, *index);
                let end = if *is_on_byte {
                    self.once(body.as_slice(), inner)
                } else {
                    self.block(body.as_slice(), inner)
                };
                (end, again)
            }
            _ => (None, again),
        }
    }
}

/// The ranges where a byte of a loop was read.
fn bytes_from(env: Env, byte: usize, index: usize) -> Env {
    let env = narrow(env?, byte, Some(Range::up_to(255)));
    narrow(env?, index, Some(Range::ALL))
}
