//! Code with labels, as it is written.
//!
//! What is written behind a jump or a return, and before a label that is jumped to, is left out as it comes. A jump to what follows
//! it is taken back when the label is written. A label behind which a jump stands is another name of where that jump leads.
//! Behind a fault nothing is written: the first one is the answer.

ghost use Rattle.std.specs.Prelude.{◌≤◌, length};

use crate::error::{CodeError, CompileFault};
use crate::generator::Generator;
use author_text::place::Place;
use life_state::State;
use module_code::Instr;
use std::alloc::Global;
use std::mem;

/// How many labels and instructions are written at most, before the filter is told to be too long.
const MOST: usize = 20_000;

/// What stands in code.
#[derive(Clone, Copy)]
pub(crate) enum Item {
    /// A label, by its number.
    Label(u16),
    /// An instruction, whose target is the number of a label, and the line of the source.
    Step(Instr, usize),
}

/// What is known of a label.
#[derive(Clone, Copy)]
struct Label {
    /// How many instructions name it.
    uses: usize,
    /// The label that it is another name of.
    other: Option<u16>,
    /// What the certificate says there.
    state: Option<State>,
}

/// The code of a handler, as far as it is written.
#[derive(Drop)]
pub(crate) struct Code {
    items: Vec<Item>,
    /// What will stand behind the handler.
    asides: Vec<Item>,
    labels: Vec<Label>,
    /// Whether control does not come to where code is written now.
    is_ended: bool,
    /// Whether the code that is written now will stand behind the handler.
    is_aside: bool,
    /// The place of the statement that is compiled.
    pub(crate) place: Place,
    /// What went wrong first.
    pub(crate) fault: Option<CodeError>,
}

/// Code that is set aside while other code is written.
#[derive(Drop)]
pub(crate) struct Kept {
    items: Vec<Item>,
    is_ended: bool,
    is_aside: bool,
}

/// Whether control does not go on behind an instruction.
fn ends(instr: Instr) -> bool {
    matches!(instr, Instr::Jump(_) | Instr::Ret(_))
}

/// Where the labels at the end of code begin.
fn labels_from(items: &[Item]) -> usize
    ensures { result ≤ length items.now }
{
    for behind in 0..items.len() {
        let from = items.len() - behind;
        if let Item::Step(_, _) = items[from - 1] {
            return from;
        }
    }
    0
}

/// Whether a label stands before the first instruction of code.
fn begins_with(items: &[Item], label: u16) -> bool {
    for item in items {
        match item {
            Item::Label(other) => {
                if *other == label {
                    return true;
                }
            }
            Item::Step(_, _) => return false,
        }
    }
    false
}

impl Code {
    /// No code.
    pub(crate) fn new(alloc: Global) -> Self {
        Code {
            items: Vec::new(alloc),
            asides: Vec::new(alloc),
            labels: Vec::new(alloc),
            is_ended: false,
            is_aside: false,
            place: Place { line: 1, column: 1 },
            fault: None,
        }
    }

    /// The label that a label is another name of in the end.
    pub(crate) fn meant(&self, label: u16) -> u16 {
        let mut meant = label;
        for _ in 0..self.labels.len() {
            match self.labels.get(usize::from(meant)) {
                Some(
                    Label {
                        other: Some(other),
                        ..
                    },
                ) => meant = *other,
                _ => return meant,
            }
        }
        meant
    }

    /// What the certificate says at a label, if it is written.
    pub(crate) fn state_at(&self, label: u16) -> Option<State> {
        self.labels.get(usize::from(label))?.state
    }

    /// How many instructions name a label.
    pub(crate) fn uses(&self, label: u16) -> usize {
        match self.labels.get(usize::from(label)) {
            Some(label) => label.uses,
            None => 0,
        }
    }

    fn add_uses(&mut self, label: u16, count: usize) {
        let meant = self.meant(label);
        if let Some(label) = self.labels.get_mut(usize::from(meant)) {
            label.uses = label.uses.saturating_add(count);
        }
    }

    fn take_use(&mut self, label: u16) {
        if let Some(label) = self.labels.get_mut(usize::from(label)) {
            label.uses = label.uses.saturating_sub(1);
        }
    }

    fn push(&mut self, item: Item) {
        if self.fault.is_some() {
            return;
        }
        if MOST <= self.items.len() || MOST <= self.asides.len() {
            self.fail(CompileFault::TooLong(MOST));
        } else if self.items.push(item).is_err() {
            self.fault = Some(CodeError::NoMemory);
        }
    }

    /// Notes what went wrong at the statement that is compiled, unless something did before.
    pub(crate) fn fail(&mut self, fault: CompileFault) {
        if self.fault.is_none() {
            let place = self.place;
            self.fault = Some(CodeError::At { place, fault });
        }
    }

    /// Whether none of the labels at the end of code is where a jump leads.
    fn leads_away(&self, from: usize, to: u16) -> bool
        requires { from ≤ length self.now.items.items }
    {
        let to = self.meant(to);
        for item in &self.items[from..] {
            if let Item::Label(label) = item
                && *label == to
            {
                return false;
            }
        }
        true
    }

    /// Makes the labels at the end of code other names of one.
    fn rename(&mut self, from: usize, to: u16)
        requires { from ≤ length self.old.items.items }
    {
        for _ in from..self.items.len() {
            if let Some(Item::Label(label)) = self.items.pop() {
                let uses = self.uses(label);
                self.add_uses(to, uses);
                if let Some(label) = self.labels.get_mut(usize::from(label)) {
                    label.other = Some(to);
                }
            }
        }
    }

    /// Takes a jump back that would lead to what follows it.
    fn take_jump_back(&mut self, label: u16) {
        let from = labels_from(self.items.as_slice());
        if from == 0 {
            return;
        }
        if let Item::Step(Instr::Jump(to), _) = self.items[from - 1]
            && self.meant(to) == label
        {
            self.items.remove(from - 1);
            self.take_use(label);
        }
    }

    /// Takes the jump at the end of the asides back, if the next begins where it leads.
    fn take_last_jump_back(&mut self, aside: &[Item]) {
        if let Some(Item::Step(Instr::Jump(to), _)) = self.asides.last().copied() {
            let label = self.meant(to);
            if begins_with(aside, label) {
                let _jump = self.asides.pop();
                self.take_use(label);
            }
        }
    }
}

impl Generator {
    /// A new label.
    pub(crate) fn label(&mut self) -> u16 {
        let number = self.code.labels.len();
        if MOST <= number {
            self.code.fail(CompileFault::TooLong(MOST));
            return 0;
        }
        let label = Label {
            uses: 0,
            other: None,
            state: None,
        };
        if self.code.labels.push(label).is_err() {
            self.code.fault = Some(CodeError::NoMemory);
        }
        number as u16
    }

    /// Writes an instruction, whose target is a label.
    pub(crate) fn step(&mut self, instr: Instr) {
        if self.code.is_ended {
            return;
        }
        if let Some(label) = instr.named_target() {
            self.code.add_uses(label, 1);
        }
        let line = self.code.place.line;
        self.code.push(Item::Step(instr, line));
        self.code.is_ended = ends(instr);
    }

    /// Writes a jump. Labels before it become other names of where it leads.
    pub(crate) fn jump(&mut self, to: u16) {
        if self.code.is_ended {
            return;
        }
        let from = labels_from(self.code.items.as_slice());
        if from < self.code.items.len() && self.code.leads_away(from, to) {
            self.code.rename(from, to);
            self.code.is_ended = match self.code.items.last() {
                Some(Item::Step(instr, _)) => ends(*instr),
                Some(Item::Label(_)) => false,
                None => self.code.is_aside,
            };
        }
        self.step(Instr::Jump(to));
    }

    /// Writes a label, and what the certificate says there.
    pub(crate) fn bind_at(&mut self, label: u16, state: State) {
        if self.code.is_ended && self.code.uses(label) == 0 {
            return;
        }
        self.code.take_jump_back(label);
        self.code.push(Item::Label(label));
        if let Some(label) = self.code.labels.get_mut(usize::from(label)) {
            label.state = Some(state);
        }
        self.code.is_ended = false;
    }

    /// Begins code that will stand behind the handler.
    pub(crate) fn begin_aside(&mut self) -> Kept {
        let items = mem::replace(&mut self.code.items, Vec::new(self.alloc));
        let is_ended = mem::replace(&mut self.code.is_ended, true);
        let is_aside = mem::replace(&mut self.code.is_aside, true);
        Kept {
            items,
            is_ended,
            is_aside,
        }
    }

    /// Ends it, and goes on with the code before it.
    pub(crate) fn end_aside(&mut self, kept: Kept) {
        let Kept {
            items,
            is_ended,
            is_aside,
        } = kept;
        let aside = mem::replace(&mut self.code.items, items);
        self.code.is_ended = is_ended;
        self.code.is_aside = is_aside;
        self.code.take_last_jump_back(aside.as_slice());
        if self
            .code
            .asides
            .extend_from_slice(aside.as_slice())
            .is_err()
        {
            self.code.fault = Some(CodeError::NoMemory);
        }
    }

    /// The code of the handler, which ends there.
    pub(crate) fn finish(&mut self) -> Vec<Item> {
        let mut items = mem::replace(&mut self.code.items, Vec::new(self.alloc));
        let asides = mem::replace(&mut self.code.asides, Vec::new(self.alloc));
        self.code.is_ended = false;
        if items.extend_from_slice(asides.as_slice()).is_err() {
            self.code.fault = Some(CodeError::NoMemory);
        }
        items
    }
}
