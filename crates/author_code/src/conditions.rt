//! Conditions: code that jumps by them.

use crate::error::CompileFault;
use crate::generator::Generator;
use crate::known::Filling;
use author_text::tree::{Comparison, Cond, Expr};
use module_code::{Instr, Value};

/// Whether an instruction jumps where a comparison holds, and not where it does not.
fn is_natural(op: Comparison, right: &Expr) -> bool {
    match op {
        Comparison::Less | Comparison::Equal => true,
        Comparison::Greater => !matches!(right, Expr::Constant { .. }),
        Comparison::LessOrEqual | Comparison::GreaterOrEqual | Comparison::NotEqual => false,
    }
}

/// How many jumps more than one for each part it takes to jump where a condition is so.
pub(crate) fn jumps_for(test: &Cond, sense: bool) -> usize {
    let natural = match test {
        Cond::Not(test) => return jumps_for(test, !sense),
        Cond::And(left, right) | Cond::Or(left, right) => {
            return jumps_for(left, sense).saturating_add(jumps_for(right, sense));
        }
        Cond::Compare { op, right, .. } => is_natural(*op, right),
        Cond::Empty { .. } => true,
        Cond::Known(_) | Cond::Has { .. } => false,
    };
    usize::from(natural != sense)
}

impl Generator {
    /// Jumps to a label where a condition is so.
    #[cycle(jumping)]
    pub(crate) fn jump_where(&mut self, test: &Cond, to: u16, sense: bool) {
        match test {
            Cond::Known(known) => {
                if *known == sense {
                    self.jump(to);
                }
            }
            Cond::Not(test) => self.jump_where(test, to, !sense),
            Cond::And(_, _) | Cond::Or(_, _) => self.jump_where_both(test, to, sense),
            Cond::Compare { op, left, right } => self.jump_compared(*op, left, right, to, sense),
            Cond::Empty { hold } => {
                self.empty_before(Some(*hold));
                let brigade = self.brigade(Some(*hold));
                let label = self.begin_jump(to, sense);
                self.step(Instr::JEmpty(brigade, label));
                self.end_jump(to, label);
            }
            Cond::Has { hold, size } => {
                self.empty_before(Some(*hold));
                let brigade = self.brigade(Some(*hold));
                let used = self.used;
                let size = self.operand(size);
                self.used = used;
                let label = self.begin_jump(to, !sense);
                self.step(Instr::BPart(brigade, size, 1, label));
                self.end_jump(to, label);
            }
        }
    }

    #[cycle(jumping)]
    fn jump_where_both(&mut self, test: &Cond, to: u16, sense: bool) {
        let (left, right, is_and) = match test {
            Cond::And(left, right) => (left, right, true),
            Cond::Or(left, right) => (left, right, false),
            _ => return self.code.fail(CompileFault::NoTree),
        };
        let skip = self.label();
        if is_and == sense {
            self.jump_where(left, skip, !sense);
        } else {
            self.jump_where(left, to, sense);
        }
        let between = self.buffer();
        self.jump_where(right, to, sense);
        self.bind_here(skip);
        if between != self.buffer() {
            self.set_buffer(Filling::Unknown);
        }
    }

    /// Where an instruction leads that is to jump to a label where its test holds, or where it does not.
    fn begin_jump(&mut self, to: u16, jumps_at_true: bool) -> u16 {
        if jumps_at_true { to } else { self.label() }
    }

    /// Behind that instruction.
    fn end_jump(&mut self, to: u16, label: u16) {
        if label != to {
            self.jump(to);
            self.bind_here(label);
        }
    }

    fn jump_compared(&mut self, op: Comparison, left: &Expr, right: &Expr, to: u16, sense: bool) {
        let used = self.used;
        let left = self.in_register(left);
        let right = self.operand(right);
        self.used = used;
        let is_natural = matches!(
            op,
            Comparison::Equal | Comparison::Less | Comparison::Greater
        );
        let label = self.begin_jump(to, is_natural == sense);
        match (op, right) {
            (Comparison::Equal | Comparison::NotEqual, _) => {
                self.step(Instr::JEq(left, right, label));
            }
            (Comparison::Less | Comparison::GreaterOrEqual, _) => {
                self.step(Instr::JLt(left, right, label));
            }
            (_, Value::Number(right)) => self.step(Instr::JLt(right, Value::Number(left), label)),
            (_, Value::Constant(_)) => self.code.fail(CompileFault::NoTree),
        }
        self.end_jump(to, label);
    }
}
