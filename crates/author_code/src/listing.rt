//! The text of the module that was made, and where its labels stand.

use crate::code::{Code, Item};
use crate::generator::{DATA, Generator};
use crate::handlers::Handlers;
use crate::plan::Brigade;
use byte_text::push_spelling;
use itoa::Buffer;
use life_state::{State, at_main, at_open};
use module_code::parts::parts;
use module_code::{Arg, Instr, PoolRef, Status, Value, VarRef};
use std::alloc::Global;

/// The text of a module, as it is written, and the states that its certificate will give.
#[derive(Drop)]
pub(crate) struct Listing {
    pub(crate) text: Vec<u8>,
    /// The state before each instruction that is the first of a handler, or that one leads to.
    pub(crate) states: Vec<Option<State>>,
    /// The instruction behind the label where data is treated, if it is there.
    pub(crate) data: Option<usize>,
    /// How many instructions name a text.
    pub(crate) texts: usize,
    /// Whether there was no memory.
    pub(crate) is_failed: bool,
    /// The line of the source that was named last.
    line: usize,
}

/// The names of the labels that each module has, by their numbers.
const NAMES: [&[u8]; 8] = [
    b"loop", b"data", b"out", b"last", b"end", b"left", b"gone", b"bad",
];

impl Listing {
    fn push(&mut self, bytes: &[u8]) {
        if self.text.extend_from_slice(bytes).is_err() {
            self.is_failed = true;
        }
    }

    /// Some letters and a number.
    fn push_numbered(&mut self, before: &[u8], number: u32) {
        let mut digits = Buffer::new();
        self.push(before);
        self.push(digits.format(number).as_bytes());
    }

    fn push_pool(&mut self, pool: PoolRef) {
        match pool {
            PoolRef::Conn => self.push(b" conn"),
            PoolRef::Req => self.push(b" req"),
            PoolRef::Own(pool) => self.push_numbered(b" p", u32::from(pool)),
        }
    }

    fn push_brigade(&mut self, brigade: u8) {
        if brigade == 8 {
            self.push(b" in");
        } else {
            self.push_numbered(b" b", u32::from(brigade));
        }
    }

    /// The name of a label.
    fn push_label(&mut self, before: &[u8], code: &Code, label: u16) {
        let label = code.meant(label);
        self.push(before);
        match NAMES.get(usize::from(label)) {
            Some(name) => self.push(name),
            None => self.push_numbered(b"l", u32::from(label.saturating_sub(7))),
        }
    }

    fn push_text(&mut self, texts: &[Vec<u8>], number: u8) {
        self.texts = self.texts.saturating_add(1);
        self.push(b" ");
        if let Some(text) = texts.get(usize::from(number))
            && push_spelling(&mut self.text, text.as_slice()).is_err()
        {
            self.is_failed = true;
        }
    }

    /// An operand, with the space before it.
    fn push_arg(&mut self, generator: &Generator, arg: Arg) {
        match arg {
            Arg::Nothing => {}
            Arg::Place(pool) => self.push_pool(pool),
            Arg::Pool(pool) | Arg::Variable(VarRef::Pool(pool)) => {
                self.push_pool(PoolRef::Own(pool));
            }
            Arg::Brigade(brigade)
            | Arg::Source(brigade)
            | Arg::Variable(VarRef::Brigade(brigade)) => self.push_brigade(brigade),
            Arg::Ending(Status::Success) => self.push(b" ok"),
            Arg::Ending(Status::Fail) => self.push(b" fail"),
            Arg::Target(label) => self.push_label(b" ", &generator.code, label),
            Arg::Text(number) => self.push_text(generator.texts.as_slice(), number),
            Arg::Number(number) | Arg::Value(Value::Number(number)) => {
                self.push_numbered(b" n", u32::from(number));
            }
            Arg::Value(Value::Constant(constant)) => self.push_numbered(b" ", constant),
            Arg::Cursor(cursor) => self.push_numbered(b" c", u32::from(cursor)),
            Arg::KindTest(kind) => {
                self.push(b" ");
                self.push(kind.text());
            }
        }
    }

    /// The line of an instruction, and a comment before it where the line of the source is another.
    fn push_step(&mut self, generator: &Generator, instr: Instr, line: usize) {
        if line != self.line {
            self.push_numbered(b"# line ", line.min(u32::MAX as usize) as u32);
            self.push(b"\n");
            self.line = line;
        }
        let (op, args) = parts(instr);
        self.push(b"  ");
        self.push(op.text());
        for arg in [args.first, args.second, args.third, args.fourth] {
            self.push_arg(generator, arg);
        }
        self.push(b"\n");
    }

    /// The lines of a handler, which begins in a state.
    fn push_handler(&mut self, generator: &Generator, name: &[u8], items: &[Item], first: State) {
        self.push(name);
        let mut first = Some(first);
        let mut here = None;
        let mut is_named = false;
        for item in items {
            match item {
                Item::Label(label) => {
                    is_named = self.push_label_line(&generator.code, *label) || is_named;
                    here = generator.code.state_at(*label);
                }
                Item::Step(instr, line) => {
                    self.push_state(first.or(if is_named { here } else { None }));
                    first = None;
                    is_named = false;
                    self.push_step(generator, *instr, *line);
                }
            }
        }
    }

    /// Notes the state before the next instruction, if the certificate gives one.
    fn push_state(&mut self, state: Option<State>) {
        if self.states.push(state).is_err() {
            self.is_failed = true;
        }
    }

    /// The line of a label that an instruction names. Whether one does.
    fn push_label_line(&mut self, code: &Code, label: u16) -> bool {
        if label == DATA {
            self.data = Some(self.states.len());
        }
        let is_named = code.uses(label) != 0;
        if is_named {
            self.push_label(b":", code, label);
            self.push(b"\n");
        }
        is_named
    }

    fn push_brigades(&mut self, brigades: &[Brigade]) {
        for (number, brigade) in brigades.iter().enumerate() {
            let pool = match brigade {
                Brigade::Unused => return,
                Brigade::Connection => PoolRef::Conn,
                Brigade::Output | Brigade::Request | Brigade::Spare => PoolRef::Req,
            };
            self.push(b"brigade");
            self.push_brigade(number.min(7) as u8);
            self.push_pool(pool);
            self.push(b"\n");
        }
    }
}

/// The text of the module, with what is known at its labels.
pub(crate) fn make_listing(alloc: Global, generator: &Generator, handlers: &Handlers) -> Listing {
    let mut listing = Listing {
        text: Vec::new(alloc),
        states: Vec::new(alloc),
        data: None,
        texts: 0,
        is_failed: false,
        line: 0,
    };
    listing.push(b"module 1\n");
    listing.push_brigades(&generator.plan.brigades);
    let count = generator.plan.count.min(8) as u8;
    listing.push_handler(generator, b"open\n", &handlers.open, at_open(0, count));
    listing.push_handler(
        generator,
        b"init\n",
        &handlers.init,
        generator.idle_state(true),
    );
    let main = at_main(&generator.ready_state());
    listing.push_handler(generator, b"main\n", &handlers.main, main);
    listing.push(b"end\n");
    listing
}
