//! The three handlers of a module, as they are put together from those of a filter.

use crate::code::Item;
use crate::error::CodeError;
use crate::generator::{BAD, DATA, END, GONE, Generator, LAST, LEFT, OUT, ROUND, Reading};
use crate::known::{Filling, Holding, Known, Output, Part, Ways};
use crate::plan::Brigade;
use crate::states::Mark;
use crate::survey::Survey;
use author_text::place::Place;
use author_text::tree::{Event, Filter, NumberKind, Stmt};
use module_code::{Instr, KindTest, Status, Value};

/// The code of the handlers.
#[derive(Drop)]
pub(crate) struct Handlers {
    pub(crate) open: Vec<Item>,
    pub(crate) init: Vec<Item>,
    pub(crate) main: Vec<Item>,
}

/// What is done at an event; none where the filter has no such handler.
fn body_at(filter: &Filter, event: Event) -> Option<&[Stmt]> {
    for handler in &filter.handlers {
        if handler.event == event {
            return Some(handler.body.as_slice());
        }
    }
    None
}

/// The same, where nothing is done without one.
fn body_or_none(filter: &Filter, event: Event) -> &[Stmt] {
    match body_at(filter, event) {
        Some(body) => body,
        None => &[],
    }
}

impl Generator {
    /// The code of the handlers.
    pub(crate) fn handlers(&mut self, filter: &Filter) -> Handlers {
        let open = self.open(filter);
        let init = self.init(filter);
        let main = self.main(filter);
        Handlers { open, init, main }
    }

    fn known_as(&mut self, it: Holding, buffer: Filling) {
        self.known = Some(Known { it, buffer });
    }

    /// The place of what no statement says.
    fn at_the_head(&mut self) {
        self.code.place = Place { line: 1, column: 1 };
    }

    fn return_with(&mut self, status: Status) {
        self.step(Instr::Ret(status));
        self.known = None;
    }

    // ---- open

    fn open(&mut self, filter: &Filter) -> Vec<Item> {
        self.create_brigades(true);
        self.load_tables(filter);
        for (place, number) in filter.numbers.iter().enumerate() {
            if let NumberKind::Connection(value) = number.kind
                && value != 0
            {
                self.set_number(place, value);
            }
        }
        self.return_with(Status::Success);
        self.finish()
    }

    /// Makes the brigades of the connection, or of the request.
    fn create_brigades(&mut self, of_conn: bool) {
        for brigade in 0..8u8 {
            let is_made = match self.plan.brigades[usize::from(brigade)] {
                Brigade::Unused => false,
                Brigade::Connection => of_conn,
                Brigade::Output | Brigade::Request | Brigade::Spare => !of_conn,
            };
            if is_made {
                self.step(Instr::BCreate(brigade));
            }
        }
    }

    fn set_number(&mut self, number: usize, value: u32) {
        let register = self.register(number);
        self.step(Instr::Set(register, Value::Constant(value)));
    }

    fn load_tables(&mut self, filter: &Filter) {
        for (place, table) in filter.tables.iter().enumerate() {
            if let Some(brigade) = self.plan.brigade_of_table(place) {
                self.put_pieces(table.bytes.as_slice(), 0, brigade);
                if 255 < table.bytes.len() {
                    self.join_pieces(brigade);
                }
            }
        }
    }

    /// The buckets of a table become one, of which each byte can be read.
    fn join_pieces(&mut self, brigade: u8) {
        let next = self.label();
        let get = self.label();
        let done = self.label();
        let end = self.label();
        let here = Mark::at_bucket(brigade);
        self.bind_here(next);
        self.step(Instr::First(0, brigade));
        self.step(Instr::JEnd(0, end));
        self.step(Instr::Read(0, end));
        self.step(Instr::Set(0, Value::Constant(0)));
        self.reading = Some(Reading {
            cursor: 0,
            failed: end,
            index: 0,
            depth: 1,
        });
        self.bind(get, here);
        self.reading = None;
        self.step(Instr::Get(1, Value::Number(0), done));
        self.step(Instr::Add(0, Value::Constant(1)));
        self.step(Instr::Put(Value::Number(1), end));
        self.jump(get);
        self.bind(done, here);
        self.step(Instr::BDelete(0));
        self.jump(next);
        self.bind_here(end);
        self.step(Instr::FromBuf(1));
        self.step(Instr::Tail(brigade, 1));
        self.step(Instr::ClearBuf);
        self.step(Instr::Set(0, Value::Constant(0)));
        self.step(Instr::Set(1, Value::Constant(0)));
    }

    // ---- init

    fn init(&mut self, filter: &Filter) -> Vec<Item> {
        self.part = Part::Init;
        self.create_brigades(false);
        for (place, number) in filter.numbers.iter().enumerate() {
            if let NumberKind::Request(value) = number.kind {
                self.set_number(place, value);
            }
        }
        for hold in 0..self.plan.holds.len() {
            if !self.hold(hold).is_conn {
                self.hold_is_empty(hold);
            }
        }
        let body = body_or_none(filter, Event::Start);
        let started = self.label();
        self.begin_tables(&[body], started);
        self.known_as(Holding::Nothing, Filling::Empty);
        let ways = self.done_at(started, true, body);
        self.walkers = [None; 8];
        self.meet(ways.and(self.known));
        self.bind_here(started);
        self.at_the_head();
        self.empty_buffer();
        self.return_with(Status::Success);
        self.finish()
    }

    /// Sets the cursors of tables, if one is read by a cursor in these statements.
    fn begin_tables(&mut self, bodies: &[&[Stmt]], failed: u16) {
        let mut survey = Survey::new(self.alloc);
        for body in bodies {
            survey.add(body);
        }
        if survey.is_failed {
            self.code.fault = Some(CodeError::NoMemory);
        }
        let mut is_read = false;
        for table in &survey.tables {
            if let Some(code) = self.plan.tables.get(*table) {
                is_read = is_read || code.cursor.is_some();
            }
        }
        if is_read {
            self.set_tables(failed);
        }
    }

    fn set_tables(&mut self, failed: u16) {
        self.walkers = self.plan.at_tables;
        for cursor in (0..8u8).rev() {
            if let Some(brigade) = self.walkers[usize::from(cursor)] {
                self.step(Instr::First(cursor, brigade));
                self.step(Instr::JEnd(cursor, failed));
            }
        }
    }

    // ---- main

    /// What is known of the buffer between buckets.
    fn filling_between(&self, filter: &Filter) -> Filling {
        let mut survey = Survey::new(self.alloc);
        for event in [Event::Call, Event::Bucket, Event::Flush, Event::Return] {
            survey.add(body_or_none(filter, event));
        }
        if survey.has_put && !self.plan.targets.is_empty() {
            Filling::Unknown
        } else {
            Filling::Empty
        }
    }

    fn main(&mut self, filter: &Filter) -> Vec<Item> {
        self.part = Part::Main;
        let buffer = self.filling_between(filter);
        self.step(Instr::JSent(GONE));
        let bodies = [
            body_or_none(filter, Event::Call),
            body_or_none(filter, Event::Bucket),
            body_or_none(filter, Event::Flush),
            body_or_none(filter, Event::Return),
            body_or_none(filter, Event::Eos),
        ];
        self.begin_tables(&bodies, BAD);
        self.known_as(Holding::Nothing, Filling::Empty);
        let _ways = self.done_at(ROUND, true, bodies[0]);
        self.buckets(filter, buffer);
        self.returns(bodies[3], buffer);
        self.ends(bodies[4], buffer);
        self.left();
        self.tail();
        self.finish()
    }

    /// The loop over the buckets of a brigade.
    fn buckets(&mut self, filter: &Filter, buffer: Filling) {
        self.bind(ROUND, Mark::NOTHING);
        self.step(Instr::First(0, 8));
        self.step(Instr::JEnd(0, OUT));
        let data = body_at(filter, Event::Bucket);
        let flush = body_at(filter, Event::Flush);
        if data.is_none() && flush.is_none() {
            self.step(Instr::JKind(0, KindTest::Eos, LAST));
            return self.at_bucket(None, buffer, (true, true));
        }
        self.step(Instr::JKind(0, KindTest::Data, DATA));
        self.step(Instr::JKind(0, KindTest::Eos, LAST));
        self.at_bucket(flush, buffer, (false, true));
        self.it_kinds = (true, false);
        let there = Mark {
            it: Some(Holding::There),
            ..Mark::HERE
        };
        self.bind(DATA, there);
        self.at_bucket(data, buffer, (true, false));
    }

    /// What is done with a bucket of some kinds; without a handler it is emitted.
    fn at_bucket(&mut self, body: Option<&[Stmt]>, buffer: Filling, kinds: (bool, bool)) {
        self.it_kinds = kinds;
        self.known_as(Holding::There, buffer);
        match body {
            Some(body) => {
                let _ways = self.done_at(ROUND, false, body);
                self.drop_it();
            }
            None => {
                self.at_the_head();
                self.empty_before(None);
                self.step(Instr::Unlink(0));
                self.step(Instr::Tail(0, 0));
            }
        }
        self.jump(ROUND);
        self.known = None;
    }

    /// The end of a brigade without an EOS.
    fn returns(&mut self, body: &[Stmt], buffer: Filling) {
        self.bind(OUT, Mark::NOTHING);
        let rest = self.label();
        self.known_as(Holding::Nothing, buffer);
        let ways = self.done_at(rest, true, body);
        self.meet(ways.and(self.known));
        self.bind(rest, Mark::NOTHING);
        self.at_the_head();
        self.empty_buffer();
        self.pass();
        self.return_with(Status::Success);
    }

    /// The end of the response, by an EOS or by `end`.
    fn ends(&mut self, body: &[Stmt], buffer: Filling) {
        self.bind(LAST, Mark::NOTHING);
        self.known_as(Holding::Nothing, buffer);
        let ways = self.done_at(END, true, body);
        let others = self.ends;
        let ways = ways.and(self.known).with(others);
        self.bind(END, Mark::NOTHING);
        self.meet(ways);
        self.at_the_head();
        self.empty_buffer();
        self.step(Instr::Eos(1));
        self.step(Instr::Tail(0, 1));
        self.step(Instr::Pass(0, BAD));
        self.step(Instr::BClean(0));
        self.return_with(Status::Success);
    }

    /// The end of this filter's part in the response, by `leave`.
    fn left(&mut self) {
        self.bind(LEFT, Mark::NOTHING);
        let ways = self.leaves;
        self.meet(ways);
        self.at_the_head();
        self.empty_buffer();
        for brigade in 0..8u8 {
            if let Brigade::Request = self.plan.brigades[usize::from(brigade)] {
                self.step(Instr::BClean(brigade));
            }
        }
        self.step(Instr::BConcat(0, 8));
        self.step(Instr::Leave);
        self.sent = true;
        self.pass();
        self.return_with(Status::Success);
    }

    /// Behind the EOS, and where the call fails.
    fn tail(&mut self) {
        self.sent = true;
        self.walkers = [None; 8];
        let gone = Mark {
            output: Some(Output::Ready),
            ..Mark::NOTHING
        };
        self.bind(GONE, gone);
        self.step(Instr::BClean(8));
        self.return_with(Status::Success);
        let bad = Mark {
            output: Some(Output::Passed),
            ..Mark::NOTHING
        };
        self.bind(BAD, bad);
        self.step(Instr::BClean(0));
        self.keep_buffer();
        self.return_with(Status::Fail);
    }

    /// What was kept stays where the call fails.
    fn keep_buffer(&mut self) {
        let mut keeps = false;
        for target in &self.plan.targets {
            keeps = keeps || target.is_some();
        }
        if !keeps {
            return;
        }
        self.known_as(Holding::Nothing, Filling::Unknown);
        self.output = Output::Own;
        self.empty_buffer();
        if self.target_place(None).is_some() {
            self.step(Instr::BClean(0));
        }
    }
}
