//! Numbers: code that computes them.

use crate::error::{CompileFault, Need};
use crate::generator::{Generator, Reading};
use crate::states::Mark;
use crate::tables::{MOST_RUNS, Run};
use author_text::tree::{Expr, ScaleOp, SumOp};
use module_code::{Instr, Value};

/// How often an expression reads a number.
fn reads_of(expr: &Expr, number: usize) -> usize {
    match expr {
        Expr::Constant { .. } | Expr::Size { .. } => 0,
        Expr::Variable { number: other, .. } => usize::from(*other == number),
        Expr::Look { index, .. } => reads_of(index, number),
        Expr::Sum { left, right, .. } => {
            reads_of(left, number).saturating_add(reads_of(right, number))
        }
        Expr::Scale { left, .. } => reads_of(left, number),
    }
}

/// Whether a number is what is computed first of a sum or a product.
fn is_first(expr: &Expr, number: usize) -> bool {
    match expr {
        Expr::Sum { left, .. } | Expr::Scale { left, .. } => is_first(left, number),
        Expr::Variable { number: other, .. } => *other == number,
        Expr::Constant { .. } | Expr::Look { .. } | Expr::Size { .. } => false,
    }
}

/// Whether an expression reads a number in another place than the first, where it is read before anything is computed.
fn reads_later(expr: &Expr, number: usize) -> bool {
    usize::from(is_first(expr, number)) < reads_of(expr, number)
}

/// Whether an expression cannot be computed in the number itself, since it reads that number after its value has changed.
fn needs_room(expr: &Expr, number: usize) -> bool {
    match expr {
        Expr::Look { index, .. } => reads_later(index, number),
        _ => reads_later(expr, number),
    }
}

/// How many of a divisor's multiples by 1, 2, 4 .. are not over a number.
fn double_count(by: u32, highest: u32) -> u32 {
    for shift in 0..32u32 {
        if u64::from(highest) < u64::from(by) << shift {
            return shift;
        }
    }
    32
}

impl Generator {
    /// How large the operand of a node can be.
    pub(crate) fn highest(&self, node: usize) -> u32 {
        match self.plan.highest.get(node) {
            Some(highest) => *highest,
            None => u32::MAX,
        }
    }

    /// An expression as an operand. What it needs for that is a number that is in use from here on.
    #[cycle(computing)]
    pub(crate) fn operand(&mut self, expr: &Expr) -> Value {
        match expr {
            Expr::Constant { value, .. } => Value::Constant(*value),
            Expr::Variable { number, .. } => Value::Number(self.register(*number)),
            Expr::Look { .. } | Expr::Size { .. } | Expr::Sum { .. } | Expr::Scale { .. } => {
                let number = self.take_number_for(expr);
                self.compute(expr, number);
                Value::Number(number)
            }
        }
    }

    /// An expression in a number of the module, likewise.
    pub(crate) fn in_register(&mut self, expr: &Expr) -> u8 {
        match self.operand(expr) {
            Value::Number(number) => number,
            Value::Constant(value) => {
                let number = self.take_number_for(expr);
                self.step(Instr::Set(number, Value::Constant(value)));
                number
            }
        }
    }

    /// The number becomes what the expression says.
    #[cycle(computing)]
    pub(crate) fn compute(&mut self, expr: &Expr, to: u8) {
        match expr {
            Expr::Constant { value, .. } => self.step(Instr::Set(to, Value::Constant(*value))),
            Expr::Variable { number, .. } => {
                let register = self.register(*number);
                if register != to {
                    self.step(Instr::Set(to, Value::Number(register)));
                }
            }
            Expr::Look {
                table,
                index,
                node,
                ..
            } => {
                self.compute(index, to);
                self.look(*table, *node, to);
            }
            Expr::Size { hold: None, .. } => {
                self.need_it_for(expr);
                self.step(Instr::Len(to, 0));
            }
            Expr::Size {
                hold: Some(hold),
                ..
            } => self.size_of_hold(*hold, to),
            Expr::Sum {
                op,
                left,
                right,
                ..
            } => {
                self.compute(left, to);
                let used = self.used;
                let right = self.operand(right);
                self.step(match op {
                    SumOp::Add => Instr::Add(to, right),
                    SumOp::Sub => Instr::Sub(to, right),
                });
                self.used = used;
            }
            Expr::Scale {
                op,
                left,
                by,
                node,
                ..
            } => match op {
                ScaleOp::Times => self.multiply(left, *by, to),
                ScaleOp::Over => self.divide(left, *by, *node, to),
                ScaleOp::Modulo => {
                    self.compute(left, to);
                    self.take_doubles(*by, *node, to, None);
                }
            },
        }
    }

    /// A number of the filter becomes what the expression says.
    pub(crate) fn assign(&mut self, number: usize, expr: &Expr) {
        let register = self.register(number);
        if !needs_room(expr, number) {
            return self.compute(expr, register);
        }
        let used = self.used;
        let room = self.take_number_for(expr);
        self.compute(expr, room);
        self.step(Instr::Set(register, Value::Number(room)));
        self.used = used;
    }

    // ---- tables

    /// The number becomes the byte of a table at it.
    fn look(&mut self, table: usize, node: usize, to: u8) {
        let cursor = match self.plan.tables.get(table) {
            Some(table) => table.cursor,
            None => return self.code.fail(CompileFault::NoTree),
        };
        match cursor {
            Some(cursor) => self.look_by_cursor(cursor, to),
            None => self.look_in_runs(table, node, to),
        }
    }

    /// A run of a table; behind the last, what is past the table's end.
    fn run(&self, table: usize, place: usize) -> Option<Run> {
        let table = self.plan.tables.get(table)?;
        match &table.runs {
            Some(runs) if place == runs.len() => Some(Run {
                start: table.len,
                end: table.len,
                value: 0,
                rises: false,
            }),
            Some(runs) => runs.get(place).copied(),
            None => None,
        }
    }

    fn look_in_runs(&mut self, table: usize, node: usize, to: u8) {
        let highest = self.highest(node) as usize;
        let on = self.label();
        for place in 0..=MOST_RUNS {
            let Some(run) = self.run(table, place) else {
                break;
            };
            let is_last = match self.run(table, place + 1) {
                Some(next) => highest < next.start,
                None => true,
            };
            if is_last {
                self.value_in_run(run, to);
                break;
            }
            let label = self.label();
            let end = run.end.min(u32::MAX as usize) as u32;
            self.step(Instr::JLt(to, Value::Constant(end), label));
            let kept = self.begin_aside();
            self.bind_here(label);
            self.value_in_run(run, to);
            self.jump(on);
            self.end_aside(kept);
        }
        self.bind_here(on);
    }

    /// The number, which is in a run, becomes the byte there.
    fn value_in_run(&mut self, run: Run, to: u8) {
        let start = run.start.min(u32::MAX as usize) as u32;
        let value = u32::from(run.value);
        if !run.rises {
            self.step(Instr::Set(to, Value::Constant(value)));
        } else if start < value {
            self.step(Instr::Add(to, Value::Constant(value - start)));
        } else if value < start {
            self.step(Instr::Sub(to, Value::Constant(start - value)));
        }
    }

    fn look_by_cursor(&mut self, cursor: u8, to: u8) {
        let none = self.label();
        let on = self.label();
        self.step(Instr::Read(cursor, none));
        self.step(Instr::Get(to, Value::Number(to), none));
        self.bind(on, Mark::UNREAD);
        let kept = self.begin_aside();
        self.bind(none, Mark::UNREAD);
        self.step(Instr::Set(to, Value::Constant(0)));
        self.jump(on);
        self.end_aside(kept);
        let reading = self.reading;
        self.read_again(reading);
    }

    /// Where another bucket was read within a loop over bytes, that of the loop is read again.
    pub(crate) fn read_again(&mut self, reading: Option<Reading>) {
        if let Some(reading) = reading {
            self.step(Instr::Read(reading.cursor, reading.failed));
        }
    }

    // ---- sizes

    /// The number becomes how many bytes a hold has.
    pub(crate) fn size_of_hold(&mut self, hold: usize, to: u8) {
        self.empty_before(Some(hold));
        let brigade = self.brigade(Some(hold));
        let used = self.used;
        let len = self.take_number(Need::Result);
        self.used = used;
        let next = self.label();
        let done = self.label();
        self.step(Instr::Set(to, Value::Constant(0)));
        self.step(Instr::First(1, brigade));
        self.bind(next, Mark::walking(1, brigade));
        self.step(Instr::JEnd(1, done));
        self.step(Instr::Len(len, 1));
        self.step(Instr::Add(to, Value::Number(len)));
        self.step(Instr::Next(1, 1));
        self.jump(next);
        self.bind_here(done);
    }

    // ---- products and quotients

    #[cycle(computing)]
    fn multiply(&mut self, left: &Expr, by: u32, to: u8) {
        if by == 0 {
            return self.step(Instr::Set(to, Value::Constant(0)));
        }
        if by.is_power_of_two() {
            self.compute(left, to);
            return self.add_by_bits(by, Value::Number(to), to);
        }
        let used = self.used;
        let mut factor = self.operand(left);
        match factor {
            Value::Number(number) if number == to => {
                let number = self.take_number_for(left);
                self.step(Instr::Set(number, factor));
                factor = Value::Number(number);
            }
            _ => self.step(Instr::Set(to, factor)),
        }
        self.add_by_bits(by, factor, to);
        self.used = used;
    }

    /// Of a number that is the factor once, what it is by the bits of the other below the highest.
    fn add_by_bits(&mut self, by: u32, factor: Value, to: u8) {
        let mut is_below = false;
        for bit in (0..32u32).rev() {
            let is_set = by >> bit & 1 == 1;
            if is_below {
                self.step(Instr::Add(to, Value::Number(to)));
                if is_set {
                    self.step(Instr::Add(to, factor));
                }
            }
            is_below = is_below || is_set;
        }
    }

    #[cycle(computing)]
    fn divide(&mut self, left: &Expr, by: u32, node: usize, to: u8) {
        let used = self.used;
        let rest = self.take_number_for(left);
        self.compute(left, rest);
        self.step(Instr::Set(to, Value::Constant(0)));
        self.take_doubles(by, node, rest, Some(to));
        self.used = used;
    }

    /// A number loses the multiples of a divisor; how many they are is added to another.
    fn take_doubles(&mut self, by: u32, node: usize, rest: u8, quotient: Option<u8>) {
        if by == 0 {
            self.code.fail(CompileFault::NoTree);
        }
        let highest = self.highest(node);
        for shift in (0..double_count(by, highest).min(32)).rev() {
            let taken = (u64::from(by) << shift).min(u64::from(u32::MAX)) as u32;
            let skip = self.label();
            self.step(Instr::JLt(rest, Value::Constant(taken), skip));
            self.step(Instr::Sub(rest, Value::Constant(taken)));
            if let Some(quotient) = quotient {
                self.step(Instr::Add(quotient, Value::Constant(1 << shift)));
            }
            self.bind_here(skip);
        }
    }
}
