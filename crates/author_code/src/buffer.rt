//! The buffer: bytes that are emitted or kept go into it until it is full or something else goes the same way.

use crate::error::Need;
use crate::generator::Generator;
use crate::known::Filling;
use crate::states::Mark;
use module_code::{Instr, Value};

impl Generator {
    /// Which of the buffer's targets it is.
    pub(crate) fn target_place(&self, target: Option<usize>) -> Option<usize> {
        for (place, other) in self.plan.targets.iter().enumerate() {
            if *other == target {
                return Some(place);
            }
        }
        None
    }

    /// Empties the buffer before something else goes to a target, or is asked of it.
    pub(crate) fn empty_before(&mut self, target: Option<usize>) {
        if self.target_place(target).is_some() {
            self.empty_buffer();
        }
    }

    /// Empties the buffer: a bucket of its bytes goes to its target.
    pub(crate) fn empty_buffer(&mut self) {
        let is_needed = self.known.is_some() && !self.plan.targets.is_empty();
        if !is_needed || self.buffer() == Filling::Empty {
            return;
        }
        let is_sure = self.buffer() == Filling::Some;
        let empty = self.label();
        let over = self.label();
        self.step(Instr::FromBuf(1));
        if !is_sure {
            let used = self.used;
            let len = self.take_number(Need::Length);
            self.used = used;
            self.step(Instr::Len(len, 1));
            self.step(Instr::JEq(len, Value::Constant(0), empty));
        }
        self.put_bucket(over);
        if !is_sure {
            self.drop_nothing(empty, over);
        }
        self.set_buffer(Filling::Empty);
    }

    /// Drops the bucket at `c1`, where the buffer had no bytes.
    fn drop_nothing(&mut self, empty: u16, over: u16) {
        let kept = self.begin_aside();
        self.bind(empty, Mark::LOOSE);
        self.step(Instr::BDelete(1));
        self.jump(over);
        self.end_aside(kept);
    }

    /// The bucket at `c1` goes to the target of the buffer.
    fn put_bucket(&mut self, over: u16) {
        for place in 1..self.plan.targets.len() {
            self.put_bucket_at(place, over);
        }
        let brigade = self.target_brigade(0);
        self.step(Instr::Tail(brigade, 1));
        self.bind_here(over);
        self.step(Instr::ClearBuf);
    }

    /// The same where the target is a certain one.
    fn put_bucket_at(&mut self, place: usize, over: u16) {
        let label = self.label();
        if let Some(number) = self.plan.target {
            self.step(Instr::JEq(number, Value::Constant(place.min(8) as u32), label));
        }
        let brigade = self.target_brigade(place);
        let kept = self.begin_aside();
        self.bind(label, Mark::LOOSE);
        self.step(Instr::Tail(brigade, 1));
        self.jump(over);
        self.end_aside(kept);
    }

    fn target_brigade(&mut self, place: usize) -> u8 {
        match self.plan.targets.get(place).copied() {
            Some(target) => self.brigade(target),
            None => 0,
        }
    }

    /// The buffer goes to a target, and is emptied first where it goes to another.
    fn turn_to(&mut self, target: Option<usize>) {
        let (Some(number), Some(place)) = (self.plan.target, self.target_place(target)) else {
            return;
        };
        if self.buffer() == Filling::Empty {
            return self.aim_at(target);
        }
        let same = self.label();
        self.step(Instr::JEq(number, Value::Constant(place.min(8) as u32), same));
        self.empty_buffer();
        self.aim_at(target);
        self.bind_here(same);
    }

    /// The same for a buffer that is known to be empty.
    pub(crate) fn aim_at(&mut self, target: Option<usize>) {
        if let (Some(number), Some(place)) = (self.plan.target, self.target_place(target)) {
            self.step(Instr::Set(number, Value::Constant(place.min(8) as u32)));
        }
    }

    /// A byte goes to a target by the buffer.
    pub(crate) fn put_byte(&mut self, byte: Value, target: Option<usize>) {
        self.turn_to(target);
        let here = self.label();
        let full = self.label();
        let brigade = self.brigade(target);
        self.bind_here(here);
        self.step(Instr::Put(byte, full));
        let kept = self.begin_aside();
        self.bind_here(full);
        self.step(Instr::FromBuf(1));
        self.step(Instr::Tail(brigade, 1));
        self.step(Instr::ClearBuf);
        self.jump(here);
        self.end_aside(kept);
        self.set_buffer(Filling::Some);
    }
}
