//! Conditions of the tree.

use crate::numbers::{source_place, value_of};
use crate::place::Place;
use crate::scope::Resolver;
use crate::source;
use crate::source::BinaryOp;
use crate::tree::{Comparison, Cond, Expr};

/// What the operator compares by.
fn comparison(op: BinaryOp) -> Option<Comparison> {
    match op {
        BinaryOp::Less => Some(Comparison::Less),
        BinaryOp::LessOrEqual => Some(Comparison::LessOrEqual),
        BinaryOp::Greater => Some(Comparison::Greater),
        BinaryOp::GreaterOrEqual => Some(Comparison::GreaterOrEqual),
        BinaryOp::Equal => Some(Comparison::Equal),
        BinaryOp::NotEqual => Some(Comparison::NotEqual),
        _ => None,
    }
}

/// The comparison that says the same of the two numbers in the other order.
fn turned(op: Comparison) -> Comparison {
    match op {
        Comparison::Less => Comparison::Greater,
        Comparison::LessOrEqual => Comparison::GreaterOrEqual,
        Comparison::Greater => Comparison::Less,
        Comparison::GreaterOrEqual => Comparison::LessOrEqual,
        Comparison::Equal | Comparison::NotEqual => op,
    }
}

/// Whether a comparison holds.
fn holds(op: Comparison, left: u32, right: u32) -> bool {
    match op {
        Comparison::Less => left < right,
        Comparison::LessOrEqual => left <= right,
        Comparison::Greater => left > right,
        Comparison::GreaterOrEqual => left >= right,
        Comparison::Equal => left == right,
        Comparison::NotEqual => left != right,
    }
}

/// A comparison with a constant: known, or `<`, `>=`, `==` or `!=`.
fn compare_with(op: Comparison, left: Expr, value: u32, place: Place) -> Cond {
    let (op, value) = match op {
        Comparison::LessOrEqual if value == u32::MAX => return Cond::Known(true),
        Comparison::Greater if value == u32::MAX => return Cond::Known(false),
        Comparison::LessOrEqual => (Comparison::Less, value.saturating_add(1)),
        Comparison::Greater => (Comparison::GreaterOrEqual, value.saturating_add(1)),
        _ => (op, value),
    };
    match op {
        Comparison::Less if value == 0 => Cond::Known(false),
        Comparison::GreaterOrEqual if value == 0 => Cond::Known(true),
        _ => Cond::Compare {
            op,
            left,
            right: Expr::Constant { value, place },
        },
    }
}

/// Two numbers compared.
fn compare(op: Comparison, left: Expr, right: Expr, place: Place) -> Cond {
    match (value_of(&left), value_of(&right)) {
        (Some(a), Some(b)) => Cond::Known(holds(op, a, b)),
        (Some(a), None) => compare_with(turned(op), right, a, place),
        (None, Some(b)) => compare_with(op, left, b, place),
        (None, None) => Cond::Compare { op, left, right },
    }
}

impl<'a, 's> Resolver<'a, 's> {
    /// Two conditions joined, where `stops` is what each of them decides alone: true for `or`.
    fn join(&mut self, stops: bool, left: Cond, right: Cond) -> Cond {
        match (left, right) {
            (Cond::Known(known), other) | (other, Cond::Known(known)) => {
                if known == stops {
                    Cond::Known(stops)
                } else {
                    other
                }
            }
            (left, right) => match (self.faults.boxed(left), self.faults.boxed(right)) {
                (Some(left), Some(right)) if stops => Cond::Or(left, right),
                (Some(left), Some(right)) => Cond::And(left, right),
                _ => Cond::Known(stops),
            },
        }
    }

    fn negated(&mut self, of: Cond) -> Cond {
        if let Cond::Known(known) = of {
            return Cond::Known(!known);
        }
        match self.faults.boxed(of) {
            Some(of) => Cond::Not(of),
            None => Cond::Known(false),
        }
    }

    /// A condition.
    pub fn condition(&mut self, expr: &source::Expr<'a>) -> Cond {
        match expr {
            source::Expr::Not { of, .. } => {
                let of = self.condition(of);
                self.negated(of)
            }
            source::Expr::Empty { hold, .. } => Cond::Empty {
                hold: self.hold(*hold),
            },
            source::Expr::Has { hold, size, .. } => {
                let hold = self.changed_hold(*hold);
                let size = self.number(size);
                Cond::Has { hold, size }
            }
            source::Expr::Binary {
                op: BinaryOp::And,
                left,
                right,
                ..
            } => {
                let left = self.condition(left);
                let right = self.condition(right);
                self.join(false, left, right)
            }
            source::Expr::Binary {
                op: BinaryOp::Or,
                left,
                right,
                ..
            } => {
                let left = self.condition(left);
                let right = self.condition(right);
                self.join(true, left, right)
            }
            source::Expr::Binary {
                op,
                left,
                right,
                place,
            } => match comparison(*op) {
                Some(op) => {
                    let left = self.number(left);
                    let right = self.number(right);
                    compare(op, left, right, *place)
                }
                None => self.no_condition(*place),
            },
            _ => self.no_condition(source_place(expr)),
        }
    }

    fn no_condition(&mut self, place: Place) -> Cond {
        self.faults.says(
            place,
            "a condition is due here, and this is a number: compare it, as in `x == 1`",
        );
        Cond::Known(false)
    }
}
