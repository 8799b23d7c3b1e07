//! Loops over bytes.

use crate::error::CompileFault;
use crate::generator::{BAD, Frame, Generator, Reading};
use crate::known::{Known, Part, Ways};
use crate::states::Mark;
use author_text::tree::Stmt;
use module_code::{Instr, Value};

/// A loop over bytes that is compiled.
#[derive(Clone, Copy)]
struct ByteLoop {
    /// The numbers of its index and its byte.
    index: u8,
    byte: u8,
    cursor: u8,
    /// Where a byte is read, where the index is counted, and where it is done.
    get: u16,
    count: u16,
    done: u16,
    /// Where the bucket is done.
    over: u16,
    start: Option<Known>,
    is_indexed: bool,
    is_on_byte: bool,
}

/// A label where the bucket at hand is as where the loop began.
fn at_start(looped: &ByteLoop, reads: bool) -> Mark {
    Mark {
        it: match looped.start {
            Some(known) => Some(known.it),
            None => None,
        },
        reads,
        ..Mark::HERE
    }
}

impl Generator {
    /// A loop over the bytes of the bucket at hand, or of a hold.
    #[cycle(compiling)]
    pub(crate) fn for_loop(&mut self, stmt: &Stmt) {
        let Stmt::For {
            byte,
            index,
            is_indexed,
            over,
            is_on_byte,
            body,
            ..
        } = stmt
        else {
            return self.code.fail(CompileFault::NoTree);
        };
        let body = body.as_slice();
        let used = self.used;
        let (outer, reading) = (self.frame, self.reading);
        let index = self.give_register(*index);
        let byte = self.give_register(*byte);
        let done = self.label();
        let get = self.label();
        let count = self.label();
        match over {
            None => self.need_it(),
            Some(_) => self.empty_before(*over),
        }
        self.enter_loop(body);
        let looped = ByteLoop {
            index,
            byte,
            cursor: 0,
            get,
            count,
            done,
            over: done,
            start: self.known,
            is_indexed: *is_indexed,
            is_on_byte: *is_on_byte,
        };
        self.frame = Some(Frame {
            out: done,
            again: if *is_indexed { count } else { get },
            breaks: Ways::NONE,
            continues: Ways::NONE,
        });
        let breaks = match over {
            None => self.over_bytes(&looped, body),
            Some(_) => self.over_hold(looped, *over, body),
        };
        self.frame = outer;
        self.meet(breaks.and(looped.start));
        self.bind(done, Mark::UNREAD);
        self.reading = reading;
        self.read_again(reading);
        self.used = used;
    }

    /// Over the buckets of a hold, and the bytes of each. The ways that leave the loop are the answer.
    #[cycle(compiling)]
    fn over_hold(&mut self, looped: ByteLoop, hold: Option<usize>, body: &[Stmt]) -> Ways {
        let brigade = self.brigade(hold);
        let cursor = self.take_cursor();
        let bucket = self.label();
        let over = self.label();
        let looped = ByteLoop {
            cursor,
            over,
            ..looped
        };
        self.step(Instr::First(cursor, brigade));
        let mark = Mark {
            reads: false,
            ..Mark::walking(cursor, brigade)
        };
        self.bind(bucket, mark);
        self.step(Instr::JEnd(cursor, looped.done));
        self.walk(cursor, Some(brigade));
        let breaks = self.over_bytes(&looped, body);
        self.bind(over, at_start(&looped, false));
        self.step(Instr::Next(cursor, cursor));
        self.jump(bucket);
        self.cursor = cursor;
        self.walk(cursor, None);
        breaks
    }

    /// A cursor stands in a brigade, or is free.
    pub(crate) fn walk(&mut self, cursor: u8, brigade: Option<u8>) {
        if let Some(place) = self.walkers.get_mut(usize::from(cursor)) {
            *place = brigade;
        }
    }

    /// The cursor of a loop over a hold.
    pub(crate) fn take_cursor(&mut self) -> u8 {
        let cursor = self.cursor;
        if 7 < cursor || self.plan.first_table <= cursor {
            self.code.fail(CompileFault::TooManyLoops);
            return cursor.min(7);
        }
        self.cursor = cursor + 1;
        cursor
    }

    /// Over the bytes of the bucket at the loop's cursor. The ways that leave the loop are the answer.
    #[cycle(compiling)]
    fn over_bytes(&mut self, looped: &ByteLoop, body: &[Stmt]) -> Ways {
        let place = self.code.place;
        let failed = if self.part == Part::Main {
            BAD
        } else {
            looped.done
        };
        self.step(Instr::Read(looped.cursor, failed));
        self.step(Instr::Set(looped.index, Value::Constant(0)));
        self.begin_reading(looped, failed);
        self.bind_here(looped.get);
        self.step(Instr::Get(looped.byte, Value::Number(looped.index), looped.over));
        if !looped.is_indexed {
            self.step(Instr::Add(looped.index, Value::Constant(1)));
        }
        if looped.is_on_byte {
            self.body_of_on_byte(looped, body);
        } else {
            self.block(body);
        }
        self.code.place = place;
        let breaks = self.turn(looped.start);
        if looped.is_indexed {
            self.bind(looped.count, at_start(looped, true));
            self.step(Instr::Add(looped.index, Value::Constant(1)));
        }
        self.jump(looped.get);
        breaks
    }

    fn begin_reading(&mut self, looped: &ByteLoop, failed: u16) {
        let depth = match self.reading {
            Some(reading) => reading.depth.saturating_add(1),
            None => 1,
        };
        self.reading = Some(Reading {
            cursor: looped.cursor,
            failed,
            index: looped.index,
            depth,
        });
    }

    #[cycle(compiling)]
    fn body_of_on_byte(&mut self, looped: &ByteLoop, body: &[Stmt]) {
        self.on_byte = Some(looped.index);
        let again = if looped.is_indexed {
            looped.count
        } else {
            looped.get
        };
        let nexts = self.done_at(again, true, body);
        self.on_byte = None;
        if let Some(frame) = &mut self.frame {
            frame.continues = frame.continues.with(nexts);
        }
    }
}
