//! What stands in statements, before code is made of them.

use author_text::tree::{Cond, Expr, Stmt, Thing};
use std::alloc::Global;

/// What stands in statements, and in those within them.
#[derive(Drop)]
pub(crate) struct Survey {
    /// A `keep` or an `emit`.
    pub(crate) has_put: bool,
    /// One of a front of a hold.
    pub(crate) has_part: bool,
    /// A byte comes again, as where a match fails: bytes may wait from one call to the next.
    pub(crate) has_waiting: bool,
    /// The tables that are read, by their indices.
    pub(crate) tables: Vec<usize>,
    /// Where bytes and decimals go to, each once, in the order in which they come: a hold, or the output.
    pub(crate) targets: Vec<Option<usize>>,
    /// Whether there was no memory.
    pub(crate) is_failed: bool,
}

impl Survey {
    /// Of no statements.
    pub(crate) fn new(alloc: Global) -> Self {
        Survey {
            has_put: false,
            has_part: false,
            has_waiting: false,
            tables: Vec::new(alloc),
            targets: Vec::new(alloc),
            is_failed: false,
        }
    }

    /// Adds a list of statements.
    pub(crate) fn add(&mut self, body: &[Stmt]) {
        for stmt in body {
            match stmt {
                Stmt::Set { value, .. } => self.add_expr(value),
                Stmt::Cut { at, .. } => self.add_expr(at),
                Stmt::Put { thing, to, .. } => self.add_put(thing, *to),
                Stmt::If {
                    test,
                    then,
                    other,
                    ..
                } => {
                    self.add_cond(test);
                    self.add(then.as_slice());
                    self.add(other.as_slice());
                }
                Stmt::While { test, body, .. } => {
                    if let Some(test) = test {
                        self.add_cond(test);
                    }
                    self.add(body.as_slice());
                }
                Stmt::Unread { .. } => self.has_waiting = true,
                Stmt::For { body, .. } | Stmt::Block { body, .. } | Stmt::Once { body, .. } => {
                    self.add(body.as_slice());
                }
                _ => {}
            }
        }
    }

    fn add_put(&mut self, thing: &Thing, to: Option<usize>) {
        self.has_put = true;
        match thing {
            Thing::Text(_) | Thing::It { .. } | Thing::Whole { .. } => {}
            Thing::Part { size, .. } => {
                self.has_part = true;
                self.add_expr(size);
            }
            Thing::Decimal { value, .. } | Thing::Byte { value, .. } => {
                if !self.targets.contains(&to) {
                    let pushed = self.targets.push(to);
                    self.is_failed = self.is_failed || pushed.is_err();
                }
                self.add_expr(value);
            }
        }
    }

    fn add_cond(&mut self, test: &Cond) {
        match test {
            Cond::Known(_) | Cond::Empty { .. } => {}
            Cond::Compare { left, right, .. } => {
                self.add_expr(left);
                self.add_expr(right);
            }
            Cond::And(left, right) | Cond::Or(left, right) => {
                self.add_cond(left);
                self.add_cond(right);
            }
            Cond::Not(test) => self.add_cond(test),
            Cond::Has { size, .. } => self.add_expr(size),
        }
    }

    fn add_expr(&mut self, expr: &Expr) {
        match expr {
            Expr::Constant { .. } | Expr::Variable { .. } | Expr::Size { .. } => {}
            Expr::Look { table, index, .. } => {
                if !self.tables.contains(table) {
                    let pushed = self.tables.push(*table);
                    self.is_failed = self.is_failed || pushed.is_err();
                }
                self.add_expr(index);
            }
            Expr::Sum { left, right, .. } => {
                self.add_expr(left);
                self.add_expr(right);
            }
            Expr::Scale { left, .. } => self.add_expr(left),
        }
    }
}
