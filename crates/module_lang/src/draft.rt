//! What the lines of a module text have said so far.

ghost use Rattle.std.specs.Prelude.{◌≡◌, [], OnOk};
ghost use Rattle.module_lang.specs.Drafts.{empty_draft, empty_handler, with_label, with_step, with_line, with_part};

use module_code::{Name, Op, Operands, Part, PoolRef, Seq};
use std::alloc::{AllocError, Global};

/// A label line.
#[derive(Clone, Copy)]
pub struct Label {
    /// The line, counted from 1.
    pub line: usize,
    pub name: Name,
    /// How many instructions of the handler stand before it.
    pub place: usize,
}

/// An instruction, as it is written.
#[derive(Clone, Copy)]
pub struct DraftStep {
    /// The line, counted from 1.
    pub line: usize,
    pub op: Op,
    pub operands: Operands,
    /// How many texts stand before it in the module.
    pub text: u8,
}

/// The lines of a handler.
#[derive(Drop)]
pub struct HandlerLines {
    /// The line of the handler's name, counted from 1.
    pub line: usize,
    pub labels: Seq<Label>,
    pub steps: Seq<DraftStep>,
}

impl HandlerLines {
    fn new(alloc: Global) -> Self
        ensures { result ≡ empty_handler }
    {
        HandlerLines {
            line: 0,
            labels: Seq::new(alloc),
            steps: Seq::new(alloc),
        }
    }
}

/// What the lines so far have said.
#[derive(Drop)]
pub struct Draft {
    pub part: Part,
    pub pools: Seq<PoolRef>,
    pub brigades: Seq<PoolRef>,
    pub texts: Seq<Seq<u8>>,
    pub open: HandlerLines,
    pub init: HandlerLines,
    pub main: HandlerLines,
}

impl Draft {
    /// Before the first line.
    pub fn new(alloc: Global) -> Self
        ensures { result ≡ empty_draft }
    {
        Draft {
            part: Part::Start,
            pools: Seq::new(alloc),
            brigades: Seq::new(alloc),
            texts: Seq::new(alloc),
            open: HandlerLines::new(alloc),
            init: HandlerLines::new(alloc),
            main: HandlerLines::new(alloc),
        }
    }

    /// Goes on to another part, and notes the line where a handler begins.
    pub fn begin(&mut self, part: Part, line: usize)
        ensures { self.new ≡ with_part self.old part line }
    {
        match part {
            Part::Open => self.open.line = line,
            Part::Init => self.init.line = line,
            Part::Main => self.main.line = line,
            _ => {}
        }
        self.part = part;
    }

    /// Adds a label to the handler that is being read.
    pub fn add_label(&mut self, line: usize, name: Name) -> Result<(), AllocError>
        ensures { OnOk result (self.new ≡ with_label self.old line name) }
    {
        match self.part {
            Part::Open => self.open.add_label(line, name),
            Part::Init => self.init.add_label(line, name),
            _ => self.main.add_label(line, name),
        }
    }

    /// Adds an instruction to the handler that is being read.
    pub fn add_step(&mut self, step: DraftStep) -> Result<(), AllocError>
        ensures { OnOk result (self.new ≡ with_step self.old step) }
    {
        match self.part {
            Part::Open => self.open.steps.push(step),
            Part::Init => self.init.steps.push(step),
            _ => self.main.steps.push(step),
        }
    }
}

impl HandlerLines {
    fn add_label(&mut self, line: usize, name: Name) -> Result<(), AllocError>
        ensures { OnOk result (self.new ≡ with_line self.old line name) }
    {
        let place = self.steps.len();
        self.labels.push(Label { line, name, place })
    }
}
