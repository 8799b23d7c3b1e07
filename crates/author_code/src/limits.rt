//! Limits of holds: before something is kept, it is seen whether it fits. Past the limit nothing is kept, and the call fails.

use crate::error::Need;
use crate::generator::{BAD, Generator};
use crate::known::Part;
use module_code::{Instr, Value};

/// How many bytes will be kept.
#[derive(Clone, Copy)]
pub(crate) enum Size {
    /// So many.
    Count(usize),
    /// The bucket at hand, or a copy of it.
    It,
    /// All of a hold, or a copy of it.
    Hold(usize),
    /// The first bytes of a hold, or all if it has fewer.
    Part(usize, Value),
    /// The decimal digits of this number, which is at most so large.
    Digits(u8, u32),
}

impl Generator {
    /// Goes on where so many bytes fit that are to be kept there, and counts them. Where there is no limit, nothing is done.
    pub(crate) fn admit(&mut self, size: Size, to: Option<usize>) {
        let Some(hold) = to else {
            return;
        };
        let hold = self.hold(hold);
        let (Some(counter), Some(most)) = (hold.counter, hold.limit) else {
            return;
        };
        if let Size::Count(count) = size {
            let count = count.min(u32::MAX as usize) as u32;
            self.go_on_below(counter, most.saturating_add(1).saturating_sub(count));
            return self.step(Instr::Add(counter, Value::Constant(count)));
        }
        let used = self.used;
        let number = self.take_number(Need::Result);
        self.put_size(size, number);
        self.step(Instr::Add(number, Value::Number(counter)));
        if most < u32::MAX {
            self.go_on_below(number, most + 1);
        }
        self.step(Instr::Set(counter, Value::Number(number)));
        self.used = used;
    }

    /// Goes on where a number is below another, and fails the call elsewhere. Outside `main` it goes on.
    fn go_on_below(&mut self, number: u8, below: u32) {
        if self.part != Part::Main {
            return;
        }
        let on = self.label();
        self.step(Instr::JLt(number, Value::Constant(below), on));
        self.jump(BAD);
        self.bind_here(on);
    }

    /// The number becomes how many bytes will be kept.
    fn put_size(&mut self, size: Size, to: u8) {
        match size {
            Size::Count(_) => {}
            Size::It => self.step(Instr::Len(to, 0)),
            Size::Hold(hold) => self.put_hold_size(hold, to),
            Size::Part(hold, count) => {
                self.put_hold_size(hold, to);
                let on = self.label();
                self.step(Instr::JLt(to, count, on));
                self.step(Instr::Set(to, count));
                self.bind_here(on);
            }
            Size::Digits(number, highest) => self.put_digit_count(number, highest, to),
        }
    }

    fn put_hold_size(&mut self, hold: usize, to: u8) {
        match self.hold(hold).counter {
            Some(counter) => self.step(Instr::Set(to, Value::Number(counter))),
            None => self.size_of_hold(hold, to),
        }
    }

    fn put_digit_count(&mut self, number: u8, highest: u32, to: u8) {
        let on = self.label();
        self.step(Instr::Set(to, Value::Constant(1)));
        let mut power = 10u32;
        for _ in 0..9u8 {
            if power <= highest {
                self.step(Instr::JLt(number, Value::Constant(power), on));
                self.step(Instr::Add(to, Value::Constant(1)));
            }
            power = power.saturating_mul(10);
        }
        self.bind_here(on);
    }

    /// A hold is empty now.
    pub(crate) fn hold_is_empty(&mut self, hold: usize) {
        if let Some(counter) = self.hold(hold).counter {
            self.step(Instr::Set(counter, Value::Constant(0)));
        }
    }
}
