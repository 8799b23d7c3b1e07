//! The code generator: what it knows while it goes through a filter.

use crate::code::Code;
use crate::error::{CompileFault, Need};
use crate::known::{Filling, Holding, Known, Output, Part, Ways};
use crate::plan::{HoldCode, Plan};
use author_text::place::Place;
use author_text::tree::{Expr, Filter};
use std::alloc::{AllocError, Global};

/// The labels that a module has once: the loop over buckets.
pub(crate) const ROUND: u16 = 0;
/// Where data is treated.
pub(crate) const DATA: u16 = 1;
/// The end of a brigade without EOS.
pub(crate) const OUT: u16 = 2;
/// The EOS.
pub(crate) const LAST: u16 = 3;
/// The end of the response.
pub(crate) const END: u16 = 4;
/// Where the filter leaves the chain.
pub(crate) const LEFT: u16 = 5;
/// Behind the end of the response.
pub(crate) const GONE: u16 = 6;
/// Where the call fails.
pub(crate) const BAD: u16 = 7;

/// A loop that is compiled.
#[derive(Clone, Copy)]
pub(crate) struct Frame {
    /// Where `break` leads.
    pub(crate) out: u16,
    /// Where `continue` leads.
    pub(crate) again: u16,
    pub(crate) breaks: Ways,
    pub(crate) continues: Ways,
}

/// A loop over bytes: the cursor that it reads, where it leads if that fails, and the number of its index.
#[derive(Clone, Copy)]
pub(crate) struct Reading {
    pub(crate) cursor: u8,
    pub(crate) failed: u16,
    pub(crate) index: u8,
    /// How many loops over bytes it stands in, with itself.
    pub(crate) depth: usize,
}

/// What `next` leads out of.
#[derive(Clone, Copy)]
pub(crate) struct NextFrame {
    pub(crate) label: u16,
    /// Whether the bucket at hand stays, since a handler or a byte is done and not the bucket.
    pub(crate) keeps_it: bool,
    pub(crate) ways: Ways,
    /// The loop over bytes that it stands in.
    pub(crate) reading: Option<Reading>,
}

/// The code generator.
#[derive(Drop)]
pub(crate) struct Generator {
    pub(crate) alloc: Global,
    pub(crate) code: Code,
    pub(crate) plan: Plan,
    /// The texts of the module, as its code names them.
    pub(crate) texts: Vec<Vec<u8>>,
    /// The module's number of each number of the filter.
    registers: Vec<u8>,
    /// Which of the module's numbers are in use.
    pub(crate) used: [bool; 8],
    pub(crate) part: Part,
    pub(crate) output: Output,
    /// Whether an EOS may have been passed.
    pub(crate) sent: bool,
    /// Whether `it` may be data, and whether a FLUSH.
    pub(crate) it_kinds: (bool, bool),
    /// None where control does not come.
    pub(crate) known: Option<Known>,
    /// The first cursor that is free.
    pub(crate) cursor: u8,
    /// The brigade that a cursor stands in: of tables, and of loops over holds.
    pub(crate) walkers: [Option<u8>; 8],
    pub(crate) frame: Option<Frame>,
    pub(crate) next: Option<NextFrame>,
    pub(crate) reading: Option<Reading>,
    /// The number of the index of the loop of `on byte`.
    pub(crate) on_byte: Option<u8>,
    pub(crate) ends: Ways,
    pub(crate) leaves: Ways,
}

/// The place of an expression.
fn place_of(expr: &Expr) -> Place {
    match expr {
        Expr::Constant { place, .. }
        | Expr::Variable { place, .. }
        | Expr::Look { place, .. }
        | Expr::Size { place, .. }
        | Expr::Sum { place, .. }
        | Expr::Scale { place, .. } => *place,
    }
}

fn place_of_last(filter: &Filter) -> Place {
    if let Some(table) = filter.tables.last() {
        return table.place;
    }
    match filter.holds.last() {
        Some(hold) => hold.place,
        None => Place { line: 1, column: 1 },
    }
}

impl Generator {
    // ---- numbers

    /// A number of the module that is not in use.
    pub(crate) fn take_number(&mut self, need: Need) -> u8 {
        for number in 0..8u8 {
            if !self.used[usize::from(number)] {
                self.used[usize::from(number)] = true;
                return number;
            }
        }
        self.code.fail(CompileFault::TooManyNumbers(need));
        0
    }

    /// The same for what an expression needs on the way.
    pub(crate) fn take_number_for(&mut self, expr: &Expr) -> u8 {
        let place = self.code.place;
        self.code.place = place_of(expr);
        let number = self.take_number(Need::Result);
        self.code.place = place;
        number
    }

    /// The module's number of one of the filter.
    pub(crate) fn register(&mut self, number: usize) -> u8 {
        match self.registers.get(number) {
            Some(register) => *register,
            None => {
                self.code.fail(CompileFault::NoTree);
                0
            }
        }
    }

    /// Gives a number of the filter one of the module.
    pub(crate) fn give_register(&mut self, number: usize) -> u8 {
        let register = self.take_number(Need::Number(number));
        match self.registers.get_mut(number) {
            Some(given) => *given = register,
            None => self.code.fail(CompileFault::NoTree),
        }
        register
    }

    // ---- brigades

    /// What is known of a hold.
    pub(crate) fn hold(&mut self, hold: usize) -> HoldCode {
        match self.plan.holds.get(hold) {
            Some(hold) => *hold,
            None => {
                self.code.fail(CompileFault::NoTree);
                HoldCode {
                    brigade: 0,
                    is_conn: false,
                    limit: None,
                    counter: None,
                }
            }
        }
    }

    /// The brigade of a hold, or of the output.
    pub(crate) fn brigade(&mut self, target: Option<usize>) -> u8 {
        match target {
            None => 0,
            Some(hold) => self.hold(hold).brigade,
        }
    }

    // ---- what is known

    /// Whether `it` is there.
    pub(crate) fn has_it(&self) -> bool {
        match self.known {
            Some(known) => known.it == Holding::There,
            None => false,
        }
    }

    /// `it` is there.
    pub(crate) fn need_it(&mut self) {
        if !self.has_it() {
            self.code.fail(CompileFault::GivenAway);
        }
    }

    /// `it` is there, as an expression needs it.
    pub(crate) fn need_it_for(&mut self, expr: &Expr) {
        let place = self.code.place;
        self.code.place = place_of(expr);
        self.need_it();
        self.code.place = place;
    }

    /// `it` is not there any more.
    pub(crate) fn lose_it(&mut self) {
        if let Some(known) = &mut self.known {
            known.it = Holding::Gone;
        }
    }

    /// What is known of the buffer changes.
    pub(crate) fn set_buffer(&mut self, buffer: Filling) {
        if let Some(known) = &mut self.known {
            known.buffer = buffer;
        }
    }

    /// What is known of the buffer.
    pub(crate) fn buffer(&self) -> Filling {
        match self.known {
            Some(known) => known.buffer,
            None => Filling::Unknown,
        }
    }

    /// What is known from where ways meet.
    pub(crate) fn meet(&mut self, ways: Ways) {
        if ways.is_split {
            self.code.fail(CompileFault::GivenAwayOnOneWay);
        }
        self.known = ways.known;
    }

    // ---- the beginning

    /// The generator for a filter, before any code is written.
    pub(crate) fn new(alloc: Global, filter: &Filter, plan: Plan) -> Result<Generator, AllocError> {
        let registers = vec![in alloc; 0; filter.numbers.len()]?;
        Ok(Generator {
            alloc,
            code: Code::new(alloc),
            plan,
            texts: Vec::new(alloc),
            registers,
            used: [false; 8],
            part: Part::Open,
            output: Output::InUse,
            sent: false,
            it_kinds: (true, false),
            known: None,
            cursor: 2,
            walkers: [None; 8],
            frame: None,
            next: None,
            reading: None,
            on_byte: None,
            ends: Ways::NONE,
            leaves: Ways::NONE,
        })
    }

    /// Makes the labels that a module has once, and gives numbers to what lasts.
    pub(crate) fn begin(&mut self, filter: &Filter) {
        for _ in 0..8u8 {
            let _label = self.label();
        }
        self.need_room(place_of_last(filter));
        self.give_lasting(filter);
        self.code.place = Place { line: 1, column: 1 };
        if 1 < self.plan.targets.len() {
            self.plan.target = Some(self.take_number(Need::Target));
        }
        for hold in 0..self.plan.holds.len() {
            self.give_counter(hold);
        }
    }

    /// There are brigades and cursors for all holds and tables, the last of which stands at a place.
    fn need_room(&mut self, place: Place) {
        self.code.place = place;
        let tables = 8u8.saturating_sub(self.plan.first_table);
        if 8 < self.plan.count {
            let count = self.plan.count;
            self.code.fail(CompileFault::TooManyBrigades(count));
        } else if 6 < tables {
            self.code
                .fail(CompileFault::TooManyTables(usize::from(tables)));
        }
    }

    fn give_lasting(&mut self, filter: &Filter) {
        for number in 0..filter.lasting {
            if let Some(number) = filter.numbers.get(number) {
                self.code.place = number.place;
            }
            let _register = self.give_register(number);
        }
    }

    fn give_counter(&mut self, hold: usize) {
        if self.hold(hold).limit.is_some() {
            let counter = self.take_number(Need::HoldSize(hold));
            if let Some(hold) = self.plan.holds.get_mut(hold) {
                hold.counter = Some(counter);
            }
        }
    }
}
