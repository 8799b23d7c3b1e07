//! `emit` and `keep`.

use crate::error::{CodeError, CompileFault, Need};
use crate::generator::Generator;
use crate::known::{Filling, Ways};
use crate::limits::Size;
use crate::states::Mark;
use author_text::tree::{Expr, Thing};
use module_code::{Instr, PoolRef, Value};

/// The longest text that goes by the buffer, where its target has one.
const SHORT: usize = 4;

/// How many texts the code that is written names at most; a module has 64.
const MOST_TEXTS: usize = 250;

impl Generator {
    /// The number of a text, which the module will have.
    pub(crate) fn text(&mut self, text: &[u8]) -> u8 {
        let number = self.texts.len();
        if MOST_TEXTS <= number {
            self.code.fail(CompileFault::TooManyTexts(MOST_TEXTS));
            return 0;
        }
        let is_kept = match Vec::from_slice(self.alloc, text) {
            Ok(text) => self.texts.push(text).is_ok(),
            Err(_) => false,
        };
        if !is_kept {
            self.code.fault = Some(CodeError::NoMemory);
        }
        number as u8
    }

    /// What is kept there is set aside into the pool of the hold; what is emitted is not.
    fn set_aside(&mut self, cursor: u8, to: Option<usize>) {
        if let Some(hold) = to {
            let pool = if self.hold(hold).is_conn {
                PoolRef::Conn
            } else {
                PoolRef::Req
            };
            self.step(Instr::Aside(cursor, pool));
        }
    }

    /// What is emitted or kept goes there.
    pub(crate) fn put(&mut self, thing: &Thing, to: Option<usize>) {
        match thing {
            Thing::Text(text) => self.put_text(text.as_slice(), to),
            Thing::It { is_copy } => self.put_it(*is_copy, to),
            Thing::Whole { hold, is_copy } => self.put_whole(*hold, *is_copy, to),
            Thing::Part { hold, size } => self.put_part(*hold, size, to),
            Thing::Decimal { value, node } => self.put_decimal(value, *node, to),
            Thing::Byte { value, node } => self.put_number(value, *node, to),
        }
    }

    // ---- texts and buckets

    fn put_text(&mut self, text: &[u8], to: Option<usize>) {
        if text.is_empty() {
            return;
        }
        self.admit(Size::Count(text.len()), to);
        if self.target_place(to).is_some() && text.len() <= SHORT {
            for byte in text {
                self.put_byte(Value::Constant(u32::from(*byte)), to);
            }
            return;
        }
        self.empty_before(to);
        let brigade = self.brigade(to);
        self.put_pieces(text, 1, brigade);
    }

    /// Buckets of a text go to a brigade, by a cursor.
    pub(crate) fn put_pieces(&mut self, text: &[u8], cursor: u8, brigade: u8) {
        for piece in text.chunks(255) {
            let piece = self.text(piece);
            self.step(Instr::Immortal(cursor, piece));
            self.step(Instr::Tail(brigade, cursor));
        }
    }

    fn put_it(&mut self, is_copy: bool, to: Option<usize>) {
        self.need_it();
        self.empty_before(to);
        self.admit(Size::It, to);
        let brigade = self.brigade(to);
        let cursor = u8::from(is_copy);
        self.step(if is_copy {
            Instr::Copy(1, 0)
        } else {
            Instr::Unlink(0)
        });
        self.set_aside(cursor, to);
        self.step(Instr::Tail(brigade, cursor));
        if !is_copy {
            self.lose_it();
        }
    }

    // ---- holds

    /// The buckets of a brigade go to a hold, where they are set aside, or to the output.
    fn move_all(&mut self, from: u8, to: Option<usize>) {
        let brigade = self.brigade(to);
        self.step(if to.is_some() {
            Instr::BSave(brigade, from)
        } else {
            Instr::BConcat(brigade, from)
        });
    }

    fn put_whole(&mut self, hold: usize, is_copy: bool, to: Option<usize>) {
        self.empty_before(to);
        self.empty_before(Some(hold));
        self.admit(Size::Hold(hold), to);
        let from = self.brigade(Some(hold));
        if is_copy {
            return self.copy_all(from, to);
        }
        self.move_all(from, to);
        self.hold_is_empty(hold);
    }

    fn copy_all(&mut self, from: u8, to: Option<usize>) {
        let brigade = self.brigade(to);
        let cursor = self.take_cursor();
        let next = self.label();
        let done = self.label();
        self.step(Instr::First(cursor, from));
        self.bind(next, Mark::walking(cursor, from));
        self.step(Instr::JEnd(cursor, done));
        self.step(Instr::Copy(1, cursor));
        self.set_aside(1, to);
        self.step(Instr::Tail(brigade, 1));
        self.step(Instr::Next(cursor, cursor));
        self.jump(next);
        self.bind_here(done);
        self.cursor = cursor;
    }

    fn put_part(&mut self, hold: usize, size: &Expr, to: Option<usize>) {
        self.empty_before(to);
        self.empty_before(Some(hold));
        let used = self.used;
        let size = self.operand(size);
        self.admit(Size::Part(hold, size), to);
        let code = self.hold(hold);
        let from = code.brigade;
        let all = self.label();
        let done = self.label();
        match self.plan.spare {
            Some(spare) => {
                self.step(Instr::BPart(from, size, 1, all));
                self.step(Instr::BSplit(from, 1, spare));
                self.move_all(from, to);
                self.step(Instr::BConcat(from, spare));
            }
            None => self.code.fail(CompileFault::NoTree),
        }
        self.bind_here(done);
        let kept = self.begin_aside();
        self.bind_here(all);
        self.move_all(from, to);
        self.jump(done);
        self.end_aside(kept);
        if let Some(counter) = code.counter {
            self.step(Instr::Sub(counter, size));
        }
        self.used = used;
    }

    // ---- numbers

    fn put_number(&mut self, value: &Expr, node: usize, to: Option<usize>) {
        let used = self.used;
        let operand = self.operand(value);
        self.admit(Size::Count(1), to);
        match operand {
            Value::Number(number) if 255 < self.highest(node) => self.put_capped(number, to),
            _ => self.put_byte(operand, to),
        }
        self.used = used;
    }

    /// A number goes there as a byte, and one over 255 as 255.
    fn put_capped(&mut self, number: u8, to: Option<usize>) {
        let fits = self.label();
        let done = self.label();
        let big = self.label();
        self.step(Instr::JLt(number, Value::Constant(256), fits));
        self.jump(big);
        let before = self.known;
        self.bind_here(fits);
        self.put_byte(Value::Number(number), to);
        self.bind_here(done);
        let after = self.known;
        let kept = self.begin_aside();
        self.known = before;
        self.bind_here(big);
        self.put_byte(Value::Constant(255), to);
        self.jump(done);
        self.end_aside(kept);
        let ways = Ways::NONE.and(after).and(self.known);
        self.meet(ways);
    }

    /// The decimal digits of a number go there.
    fn put_decimal(&mut self, value: &Expr, node: usize, to: Option<usize>) {
        let used = self.used;
        let number = self.in_register(value);
        let highest = self.highest(node);
        self.admit(Size::Digits(number, highest), to);
        self.empty_buffer();
        let rest = self.take_number(Need::Result);
        let digit = self.take_number(Need::Result);
        self.aim_at(to);
        self.step(Instr::Set(rest, Value::Number(number)));
        let mut power = 1_000_000_000u32;
        for _ in 0..9u8 {
            if power <= highest {
                self.put_digit(number, rest, digit, power);
            }
            power /= 10;
        }
        let on = self.label();
        self.step(Instr::Add(rest, Value::Constant(48)));
        self.step(Instr::Put(Value::Number(rest), on));
        self.bind_here(on);
        self.used = used;
        self.set_buffer(Filling::Some);
    }

    /// The digit of a power of ten, if the number has one there. The buffer has at most ten bytes.
    fn put_digit(&mut self, number: u8, rest: u8, digit: u8, power: u32) {
        let skip = self.label();
        let next = self.label();
        let done = self.label();
        let power = Value::Constant(power);
        self.step(Instr::JLt(number, power, skip));
        self.step(Instr::Set(digit, Value::Constant(48)));
        self.bind_here(next);
        self.step(Instr::JLt(rest, power, done));
        self.step(Instr::Sub(rest, power));
        self.step(Instr::Add(digit, Value::Constant(1)));
        self.jump(next);
        self.bind_here(done);
        self.step(Instr::Put(Value::Number(digit), skip));
        self.bind_here(skip);
    }
}
