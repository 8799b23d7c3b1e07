//! Numbers of the tree: their names bound, and what is known beforehand computed.

use crate::operators::{Level, operator_level, operator_text};
use crate::place::Place;
use crate::scope::{Meaning, Resolver};
use crate::source;
use crate::source::{BinaryOp, Name};
use crate::tree::{Expr, ScaleOp, SumOp};

/// Where a number stands.
pub fn place_of(expr: &Expr) -> Place {
    match expr {
        Expr::Constant { place, .. }
        | Expr::Variable { place, .. }
        | Expr::Look { place, .. }
        | Expr::Size { place, .. }
        | Expr::Sum { place, .. }
        | Expr::Scale { place, .. } => *place,
    }
}

/// The value of a number that is known.
pub fn value_of(expr: &Expr) -> Option<u32> {
    match expr {
        Expr::Constant { value, .. } => Some(*value),
        _ => None,
    }
}

/// Where a number or a condition stands.
pub fn source_place(expr: &source::Expr<'_>) -> Place {
    match expr {
        source::Expr::Number { place, .. }
        | source::Expr::Size { place, .. }
        | source::Expr::Empty { place, .. }
        | source::Expr::Has { place, .. }
        | source::Expr::Not { place, .. }
        | source::Expr::Binary { place, .. } => *place,
        source::Expr::Name(name) => name.place,
        source::Expr::Look { table, .. } => table.place,
    }
}

/// What is done with a constant on the right of this operator, and with which one, where a shift is a product.
fn scaling(op: BinaryOp, by: u32) -> Option<(ScaleOp, u32)> {
    match op {
        BinaryOp::Times => Some((ScaleOp::Times, by)),
        BinaryOp::Over => Some((ScaleOp::Over, by)),
        BinaryOp::Modulo => Some((ScaleOp::Modulo, by)),
        BinaryOp::ShiftLeft if by < 32 => Some((ScaleOp::Times, 1 << by)),
        BinaryOp::ShiftRight if by < 32 => Some((ScaleOp::Over, 1 << by)),
        _ => None,
    }
}

/// A number of the filter with a constant.
fn scaled(op: ScaleOp, value: u32, by: u32) -> u32 {
    match op {
        ScaleOp::Times => value.saturating_mul(by),
        ScaleOp::Over => value.checked_div(by).unwrap_or(0),
        ScaleOp::Modulo => value.checked_rem(by).unwrap_or(0),
    }
}

fn summed(op: SumOp, left: u32, right: u32) -> u32 {
    match op {
        SumOp::Add => left.saturating_add(right),
        SumOp::Sub => left.saturating_sub(right),
    }
}

/// Whether the operator gives a number.
fn is_arithmetic(op: BinaryOp) -> bool {
    matches!(operator_level(op), Level::Sum | Level::Product)
}

/// What stands in for a number, once there is a fault.
pub fn zero(place: Place) -> Expr {
    Expr::Constant { value: 0, place }
}

impl<'a, 's> Resolver<'a, 's> {
    /// A number.
    pub fn number(&mut self, expr: &source::Expr<'a>) -> Expr {
        match expr {
            source::Expr::Number { value, place } => Expr::Constant {
                value: *value,
                place: *place,
            },
            source::Expr::Name(name) => self.named(*name),
            source::Expr::Size { of, place } => self.size(*of, *place),
            source::Expr::Look { table, index } => {
                let index = self.number(index);
                self.look(*table, index)
            }
            source::Expr::Binary {
                op,
                left,
                right,
                place,
            } if is_arithmetic(*op) => {
                let left = self.number(left);
                let right = self.number(right);
                self.binary(*op, left, right, *place)
            }
            _ => self.no_number(
                source_place(expr),
                "a number is due here, and this is a condition",
            ),
        }
    }

    /// What is wrong where a number is due, and what stands in for it.
    fn no_number(&mut self, place: Place, what: &str) -> Expr {
        self.faults.says(place, what);
        zero(place)
    }

    /// A number that is known beforehand.
    pub fn constant(&mut self, expr: &source::Expr<'a>) -> u32 {
        let number = self.number(expr);
        if let Some(value) = value_of(&number) {
            return value;
        }
        self.faults.says(
            place_of(&number),
            "only a number that is known beforehand may stand here",
        );
        0
    }

    fn named(&mut self, name: Name<'a>) -> Expr {
        let place = name.place;
        match self.find(name) {
            Some(Meaning::Number(number)) => Expr::Variable { number, place },
            Some(Meaning::Constant(value)) => Expr::Constant { value, place },
            _ => {
                self.says_of(name, "` is no number");
                zero(place)
            }
        }
    }

    fn size(&mut self, of: Option<Name<'a>>, place: Place) -> Expr {
        let hold = match of {
            Some(name) => Some(self.hold(name)),
            None => {
                self.check_it(place);
                None
            }
        };
        Expr::Size { hold, place }
    }

    /// The byte of a table.
    fn look(&mut self, name: Name<'a>, index: Expr) -> Expr {
        let place = name.place;
        let Some(Meaning::Table(table)) = self.find(name) else {
            self.says_of(name, "` is no table");
            return zero(place);
        };
        let node = self.new_node();
        if let Some(at) = value_of(&index) {
            let value = self.byte_of(table, at);
            return Expr::Constant { value, place };
        }
        if let Some(found) = self.filter.tables.get_mut(table) {
            found.is_read = true;
        }
        match self.faults.boxed(index) {
            Some(index) => Expr::Look {
                table,
                index,
                node,
                place,
            },
            None => zero(place),
        }
    }

    /// The byte of a table at a place, 0 past its end.
    fn byte_of(&self, table: usize, at: u32) -> u32 {
        match self.filter.tables.get(table) {
            Some(table) => u32::from(table.bytes.get(at as usize).copied().unwrap_or(0)),
            None => 0,
        }
    }

    /// Two numbers and what stands between them.
    fn binary(&mut self, op: BinaryOp, left: Expr, right: Expr, place: Place) -> Expr {
        match op {
            BinaryOp::Add => self.sum(SumOp::Add, left, right, place),
            BinaryOp::Sub => self.sum(SumOp::Sub, left, right, place),
            BinaryOp::Times if value_of(&left).is_some() => self.scale(op, right, left, place),
            _ => self.scale(op, left, right, place),
        }
    }

    /// A sum, with a constant on the right where one side is none.
    pub fn sum(&mut self, op: SumOp, left: Expr, right: Expr, place: Place) -> Expr {
        match (op, value_of(&left), value_of(&right)) {
            (_, Some(a), Some(b)) => Expr::Constant {
                value: summed(op, a, b),
                place,
            },
            (SumOp::Add, Some(_), None) => self.sum_of(op, right, left, place),
            _ => self.sum_of(op, left, right, place),
        }
    }

    fn sum_of(&mut self, op: SumOp, left: Expr, right: Expr, place: Place) -> Expr {
        if let Some(0) = value_of(&right) {
            return left;
        }
        match (self.faults.boxed(left), self.faults.boxed(right)) {
            (Some(left), Some(right)) => Expr::Sum {
                op,
                left,
                right,
                place,
            },
            _ => zero(place),
        }
    }

    /// Says why no constant stands where one is due.
    fn no_constant(&mut self, op: BinaryOp, at: Place, place: Place) -> Expr {
        if matches!(op, BinaryOp::Times) {
            return self.no_number(
                place,
                "one of the two numbers of `*` must be known beforehand",
            );
        }
        let after = "` a number that is known beforehand is due";
        self.faults
            .says_of(at, &["after `", operator_text(op)], b"", after);
        zero(place)
    }

    /// A product, a quotient, a rest or a shift.
    fn scale(&mut self, op: BinaryOp, left: Expr, right: Expr, place: Place) -> Expr {
        let at = place_of(&right);
        match value_of(&right) {
            Some(by) => self.scale_by(op, left, (by, at), place),
            None => self.no_constant(op, at, place),
        }
    }

    /// A number with a constant, which stands at a place.
    fn scale_by(&mut self, op: BinaryOp, left: Expr, by: (u32, Place), place: Place) -> Expr {
        if by.0 == 0 && matches!(op, BinaryOp::Over | BinaryOp::Modulo) {
            self.faults.says(by.1, "nothing is divided by 0");
        }
        match (scaling(op, by.0), value_of(&left)) {
            (None, _) => self.no_number(by.1, "a shift is at most 31"),
            (Some((op, by)), Some(value)) => Expr::Constant {
                value: scaled(op, value, by),
                place,
            },
            (Some((ScaleOp::Times | ScaleOp::Over, 1)), None) => left,
            (Some((op, by)), None) => self.scaled_by(op, left, by, place),
        }
    }

    fn scaled_by(&mut self, op: ScaleOp, left: Expr, by: u32, place: Place) -> Expr {
        let node = self.new_node();
        match self.faults.boxed(left) {
            Some(left) => Expr::Scale {
                op,
                left,
                by,
                node,
                place,
            },
            None => zero(place),
        }
    }
}
