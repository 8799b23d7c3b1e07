//! A refusal with what is known around it, and the remedies that the rules have for it.

use crate::capitals::{A, B, C, D, L, M, N, O, P, Q, S, T, V, X, Y, Z};
use crate::flow::{FlowRefusal, home_of, instr_at, parent_of};
use crate::rules::{Fresh, HelpRule, Per, Test, When, names_of, rule_tables};
use crate::trail::Trail;
use byte_text::{after_token, begins, is_text, len_before, tail, token};
use explain_text::{
    Edit, ModuleText, NO_LINE, Page, Pattern, Sort, Topic, brigade_name, cursor_text, last_word,
    pool_text, stands_in, text_of,
};
use life_cert::StatePlace;
use life_check::Cert;
use life_state::{Classes, CursorState};
use module_code::parts::parts;
use module_code::{Args, Instr, Module, Op, PoolRef, Status};
use std::alloc::Global;

/// A remedy: its pattern, and where its edits begin.
#[derive(Clone, Copy)]
pub struct Head {
    pub pattern: Pattern,
    pub from: usize,
}

/// A refusal with what is known around it.
#[derive(Drop)]
pub struct Case<'s> {
    pub source: &'s ModuleText,
    pub code: &'s Module,
    pub states: &'s Cert,
    pub trail: &'s Trail,
    pub refusal: FlowRefusal,
    /// The remedies so far, their edits, and the lines that these write.
    pub leaders: Vec<Head>,
    pub edits: Vec<Edit>,
    pub page: Page,
    // The instruction that made it so, and the return by which it left an earlier call; `NO_LINE` where there is none.
    maker: usize,
    exit: usize,
    // The instruction that fits, and how many did.
    at: usize,
    number: usize,
    // The place of the last edit.
    last: usize,
    // What stands for each of the capitals.
    names: [&'s [u8]; 26],
}

// The word and the operands of an instruction; those of `clearbuf` where there is none.
fn shape(code: &Module, pc: usize) -> (Op, Args) {
    parts(instr_at(code, pc).unwrap_or(Instr::ClearBuf))
}

// What stands for the capitals that are the same for all remedies.
fn first_names<'s>(
    source: &'s ModuleText,
    code: &'s Module,
    of: u8,
    maker: usize,
    pc: usize,
) -> [&'s [u8]; 26] {
    let nothing: &'s [u8] = &[];
    let mut names = [nothing; 26];
    let made = shape(code, maker).1;
    let first = made.first.index();
    names[B] = brigade_name(of).as_bytes();
    names[O] = brigade_name(code.brigade_count()).as_bytes();
    names[S] = brigade_name(first).as_bytes();
    names[T] = brigade_name(made.second.index()).as_bytes();
    names[P] = pool_text(home_of(code, of));
    names[Q] = pool_text(PoolRef::Own(first));
    names[V] = pool_text(PoolRef::Own(of));
    names[X] = source.instruction(maker);
    names[Y] = source.instruction(pc);
    names
}

impl<'s> Case<'s> {
    /// A refusal, and no remedies yet.
    pub fn new(
        alloc: Global,
        source: &'s ModuleText,
        module: (&'s Module, &'s Cert),
        trail: &'s Trail,
        refusal: FlowRefusal,
    ) -> Case<'s> {
        let maker = match trail.origin {
            StatePlace::At(pc) if trail.is_made => pc,
            _ => NO_LINE,
        };
        Case {
            source,
            code: module.0,
            states: module.1,
            trail,
            refusal,
            leaders: Vec::new(alloc),
            edits: Vec::new(alloc),
            page: Page::new(alloc),
            maker,
            exit: trail.ending_call().unwrap_or(NO_LINE),
            at: NO_LINE,
            number: 0,
            last: NO_LINE,
            names: first_names(source, module.0, refusal.doubt.of, maker, refusal.pc),
        }
    }

    /// The word of the instruction that made it so; nothing where none did.
    fn made_by(&self) -> &'static str {
        if self.maker == NO_LINE {
            return "";
        }
        text_of(shape(self.code, self.maker).0.text())
    }

    // Whether a `bsplit` stands in the handler before the refused instruction, where what it tests came from no earlier call.
    fn cuts_before(&self) -> bool {
        if self.exit != NO_LINE {
            return false;
        }
        for pc in self.code.main()..self.refusal.pc {
            if let Some(Instr::BSplit(_, _, _)) = instr_at(self.code, pc) {
                return true;
            }
        }
        false
    }

    /// The pattern of the refusal.
    pub fn pattern(&self) -> Pattern {
        let doubt = self.refusal.doubt;
        match doubt.sort {
            Sort::Sent if self.cuts_before() => Pattern::CutWithoutEos,
            Sort::LateData => self.late_pattern(),
            _ => doubt.row().pattern,
        }
    }

    // The pattern of data behind an EOS.
    fn late_pattern(&self) -> Pattern {
        if self.cuts_before() || self.is_made_by("bsplit") {
            Pattern::CutWithoutEos
        } else if self.refusal.doubt.of == 8 {
            Pattern::InsertIntoOwn
        } else if self.is_made_by("bsave bconcat") {
            Pattern::MoveOneByOne
        } else {
            Pattern::LeaveAtEos
        }
    }

    // What is known of a cursor before an instruction.
    fn cursor(&self, pc: usize, c: u8) -> CursorState {
        match self.states.state(pc) {
            Some(state) => state.cursor(c),
            None => CursorState::Unset,
        }
    }

    // Whether a bucket at the cursor is an EOS and nothing else.
    fn is_eos(&self, pc: usize, c: u8) -> bool {
        match self.cursor(pc, c) {
            CursorState::Loose(classes, _)
            | CursorState::In(_, classes)
            | CursorState::InOrEnd(_, classes) => {
                let Classes { bytes, eos, .. } = classes;
                eos && !bytes
            }
            CursorState::Unset | CursorState::End(_) => false,
        }
    }

    // Whether the brigade may be usable before an instruction, and whether it may be passed.
    fn may_be(&self, pc: usize) -> (bool, bool) {
        match self.states.state(pc) {
            Some(state) => {
                let brigade = state.brigade(self.refusal.doubt.of);
                (brigade.usable, brigade.passed)
            }
            None => (false, false),
        }
    }

    // Finds an `aside` of the cursor a few instructions before the one that puts the bucket in.
    fn finds_early(&mut self, c: u8) -> bool {
        for step in 1..5usize {
            let pc = self.maker.saturating_sub(step);
            if let Some(Instr::Aside(d, _)) = instr_at(self.code, pc) {
                if c == d {
                    self.at = pc;
                    return true;
                }
            }
        }
        false
    }

    // The cursor that the doubt is about, or of the bucket that was put in.
    fn first_cursor(&self) -> u8 {
        let (op, args) = shape(self.code, self.maker);
        match (self.refusal.doubt.is_of_cursor(), op) {
            (true, _) => self.refusal.doubt.of,
            (_, Op::Before) => args.first.index(),
            _ => args.second.index(),
        }
    }

    // Whether all of `in` was moved at once.
    fn moves_all(&self) -> bool {
        shape(self.code, self.maker).1.second.index() == 8 && self.is_made_by("bsave bconcat")
    }

    // Whether an instruction is `ret fail`.
    fn fails(&self, pc: usize) -> bool {
        matches!(instr_at(self.code, pc), Some(Instr::Ret(Status::Fail)))
    }

    fn is_when(&mut self, when: When) -> bool {
        let is_own = self.refusal.doubt.of != 8;
        let is_left = self.exit != NO_LINE;
        match when {
            When::Always => true,
            When::Gone => self.source.find(":gone") != NO_LINE,
            When::Brought => !is_own && self.code.brigade_count() < 8,
            When::Whole => is_own && self.moves_all(),
            When::Part => is_own && !self.moves_all(),
            When::Keeps => !is_left || self.may_be(self.exit).0,
            When::Lost => is_left && !self.may_be(self.exit).0,
            When::Left => is_left,
            When::Own => is_own,
            When::Fails => self.fails(self.refusal.pc),
            When::Ends => !self.fails(self.refusal.pc),
            When::Early => self.finds_early(self.first_cursor()),
        }
    }

    fn is_made_by(&self, words: &str) -> bool {
        let made = self.made_by();
        match words {
            "" => true,
            "-" => made.is_empty(),
            "*" => !made.is_empty(),
            words => stands_in(words, made),
        }
    }

    // Whether an instruction that goes to a label leads to where brigades are cleaned and the call ends well.
    fn drops(&mut self, pc: usize) -> bool {
        self.names[L] = last_word(self.source.instruction(pc));
        if pc >= self.code.main().saturating_add(3) {
            return false;
        }
        let Some(instr) = instr_at(self.code, pc) else {
            return false;
        };
        for step in 0..4usize {
            match instr_at(self.code, instr.target().saturating_add(step)) {
                Some(Instr::BClean(_)) => {}
                Some(Instr::Ret(Status::Success)) => return true,
                _ => return false,
            }
        }
        false
    }

    // Finds the jump that an instruction leads to, a few instructions behind it.
    fn finds_jump(&mut self, pc: usize) -> bool {
        for step in 1..6usize {
            let next = pc.saturating_add(step);
            match instr_at(self.code, next) {
                Some(Instr::Jump(_)) => {
                    self.at = next;
                    return true;
                }
                None | Some(Instr::Ret(_) | Instr::Pass(_, _)) => return false,
                _ => {}
            }
        }
        false
    }

    // The handler in which what lies on a pool is made: `init` where that ends with the request.
    fn beginning(&self) -> &'static str {
        let of = self.refusal.doubt.of;
        let mut pool = match self.refusal.doubt.sort {
            Sort::NullPool | Sort::GonePool | Sort::LivePool => PoolRef::Own(of),
            _ => home_of(self.code, of),
        };
        for _ in 0..8u8 {
            match pool {
                PoolRef::Conn => return "open",
                PoolRef::Req => return "init",
                PoolRef::Own(q) => pool = parent_of(self.code, q),
            }
        }
        "open"
    }

    // What is written where an instruction is about `in`, with a brigade of its own in place of that.
    fn rewritten(&mut self, pc: usize) -> &'static str {
        let (op, args) = shape(self.code, pc);
        let (x, y) = (args.first.index(), args.second.index());
        self.names[A] = brigade_name(y).as_bytes();
        self.names[C] = cursor_text(x);
        self.names[D] = cursor_text(y);
        self.names[L] = last_word(self.source.instruction(pc));
        self.form_with(op, x, y, pc)
    }

    fn form_with(&self, op: Op, x: u8, y: u8, pc: usize) -> &'static str {
        let is_in = matches!(self.cursor(pc, y), CursorState::In(8, _));
        match op {
            Op::Next if is_in => "over at unlink D;over at tail O D;over at first C in",
            Op::Before if is_in && self.is_eos(pc, y) =>
                "over at tail O C;over at unlink D;over at tail O D",
            Op::Before if is_in => "over at tail O C",
            Op::Tail | Op::Head if x == 8 => "over at tail O D",
            Op::BConcat if x == 8 => "over at bconcat O A",
            Op::Pass if x == 8 => "over at pass O L;over at bclean O",
            Op::Ret if self.fails(pc) => "before at bclean O",
            _ => "",
        }
    }

    // Whether an instruction fits, or what is of this number.
    fn fits(&mut self, test: Test, pc: usize) -> bool {
        let (op, args) = shape(self.code, pc);
        let (x, y) = (args.first.index(), args.second.index());
        self.names[C] = cursor_text(if let Op::Aside = op { x } else { y });
        match test {
            Test::LiesOn | Test::Inside => self.fits_number(test, pc),
            Test::Makes | Test::PutsEos | Test::Tails => x == self.refusal.doubt.of
                && self.fits_of(test, op, y, pc),
            _ => pc >= self.code.main() && self.fits_in_main(test, op, args, pc),
        }
    }

    // Whether an instruction fits that is about what the doubt is about.
    fn fits_of(&mut self, test: Test, op: Op, y: u8, pc: usize) -> bool {
        let is_pool = matches!(self.refusal.doubt.row().topic, Topic::Pool);
        match (test, op) {
            (Test::Makes, Op::PCreate) => is_pool,
            (Test::Makes, Op::BCreate) => !is_pool,
            (Test::PutsEos, Op::Tail) => self.is_eos(pc, y) && self.finds_jump(pc),
            (Test::Tails, Op::Tail) => true,
            _ => false,
        }
    }

    // Whether an instruction of `main` fits.
    fn fits_in_main(&mut self, test: Test, op: Op, args: Args, pc: usize) -> bool {
        let is_of = args.first.index() == self.refusal.doubt.of;
        let y = args.second.index();
        match (test, op) {
            (Test::Drops, Op::JEq | Op::JLt) => self.drops(pc),
            (Test::Saves, Op::BSave | Op::BConcat) => is_of && y == 8,
            (Test::Leaves, Op::Ret) => self.may_be(pc).1,
            (Test::PutsOfCall, Op::Tail | Op::Head) => match self.cursor(pc, y) {
                CursorState::Loose(_, homes) => is_of && homes.call,
                _ => false,
            },
            (Test::Reads, Op::Read) => true,
            (Test::Asides, Op::Aside) => !matches!(args.second.place(), PoolRef::Conn),
            _ => false,
        }
    }

    // Whether the brigade of this number lies on the pool that ended, or the cursor is at a bucket of a brigade.
    fn fits_number(&mut self, test: Test, number: usize) -> bool {
        let number = number.min(255) as u8;
        let ended = shape(self.code, self.maker).1.first.index();
        self.names[A] = brigade_name(number).as_bytes();
        self.names[C] = cursor_text(number);
        if let Test::Inside = test {
            let cursor = self.cursor(self.refusal.pc, number);
            return number < 8 && matches!(cursor, CursorState::In(_, _));
        }
        match home_of(self.code, number) {
            PoolRef::Own(q) => q == ended && number < self.code.brigade_count(),
            PoolRef::Conn | PoolRef::Req => false,
        }
    }

    // The script of a rule for an instruction; nothing where it does not fit.
    fn script(&mut self, rule: &HelpRule, pc: usize) -> &'static str {
        if let Test::Nothing = rule.test {
            return "";
        }
        self.at = pc;
        self.names[Z] = self.source.instruction(pc);
        if let (Test::Brought, true) = (rule.test, pc >= self.code.main()) {
            return self.rewritten(pc);
        }
        let fits = self.fits(rule.test, pc);
        if !fits {
            return "";
        }
        self.number = self.number.saturating_add(1);
        rule.each
    }

    // The place of a line, by the word of a step.
    fn place(&self, word: &[u8]) -> usize {
        match text_of(word) {
            "here" => self.source.line_of(self.refusal.pc),
            "maker" => self.source.line_of(self.maker),
            "exit" => self.source.line_of(self.exit),
            "at" => self.source.line_of(self.at),
            "begin" => self.source.find(self.beginning()),
            line => self.source.find(line),
        }
    }

    // Adds a form to the lines that are to be written, with the names in place of capitals.
    fn expand(&mut self, form: &[u8]) {
        for byte in form {
            let byte = *byte;
            if byte == b'#' {
                let number = self.number;
                self.page.put_number("#", number);
            } else if byte.is_ascii_uppercase() {
                let place = usize::from(byte.wrapping_sub(b'A'));
                let name = self.names.get(place).copied().unwrap_or(&[]);
                self.page.push_line(name);
            } else {
                self.page.push_line(&[byte]);
            }
        }
    }

    fn edit(&mut self, how: &[u8], place: &[u8], form: &[u8]) {
        let line = self.place(place);
        let at = line.saturating_add(usize::from(is_text(how, b"behind")));
        let start = self.page.text.len();
        self.expand(form);
        let edit = Edit {
            at,
            removes: is_text(how, b"over"),
            follows: at == self.last,
            start,
            end: self.page.text.len(),
        };
        self.last = at;
        self.page.full |= self.edits.push(edit).is_err();
    }

    // The label before the refused instruction: the one that is there, or a new one that is written.
    fn mark(&mut self) {
        let there = self
            .source
            .label_before(self.source.line_of(self.refusal.pc));
        self.names[L] = there;
        if there.is_empty() {
            let name = self.source.new_label(names_of(Fresh::Send)).as_bytes();
            self.edit(b"before", b"here", name);
            self.names[L] = tail(name);
        }
    }

    fn write(&mut self, script: &str) {
        self.last = NO_LINE;
        let mut rest = script.as_bytes();
        for _ in 0..script.len() {
            let len = len_before(rest, b';');
            self.write_step(&rest[..len]);
            rest = tail(&rest[len..]);
        }
    }

    fn write_step(&mut self, step: &[u8]) {
        let how = token(step);
        let rest = tail(after_token(step));
        if is_text(how, b"label") {
            self.mark();
        } else if !how.is_empty() {
            self.edit(how, token(rest), tail(after_token(rest)));
        }
    }

    // Adds a remedy.
    fn add(&mut self, rule: &HelpRule, script: &str) {
        let head = Head {
            pattern: rule.pattern,
            from: self.edits.len(),
        };
        self.page.full |= self.leaders.push(head).is_err();
        self.write(script);
    }

    // Adds a remedy, or one for each instruction that fits.
    fn add_all(&mut self, rule: &HelpRule) {
        if let Per::Once = rule.per {
            self.add(rule, rule.first);
        }
        for pc in 0..self.code.len().saturating_add(8) {
            let script = self.script(rule, pc);
            match rule.per {
                Per::Once => self.write(script),
                Per::Each if !script.is_empty() => self.add(rule, script),
                Per::Read if !script.is_empty() => self.add_read(rule),
                _ => {}
            }
        }
        self.write(rule.last);
    }

    // A remedy behind what set the cursor, and one before the refused instruction, to this label.
    fn add_label(&mut self, rule: &HelpRule, label: &'s [u8]) {
        self.names[L] = label;
        if !rule.first.is_empty() && self.is_made_by("first next") {
            self.add(rule, rule.first);
        }
        self.add(rule, rule.last);
    }

    // The label of a `jempty` or `jend` nearest before the use goes first.
    fn add_likely(&mut self, rule: &HelpRule) {
        for step in 1..8usize {
            let pc = self.refusal.pc.saturating_sub(step);
            if let Some(Instr::JEmpty(_, _) | Instr::JEnd(_, _)) = instr_at(self.code, pc) {
                return self.add_label(rule, last_word(self.source.instruction(pc)));
            }
        }
    }

    fn add_labels(&mut self, rule: &HelpRule) {
        if !rule.first.is_empty() {
            self.add_likely(rule);
        }
        let main = self.source.find("main");
        let count = self.source.lines.len();
        for step in 0..count {
            let index = count.saturating_sub(step).saturating_sub(1);
            let line = self.source.text_at(index);
            if index > main && begins(line, b':') {
                self.add_label(rule, tail(line));
            }
        }
    }

    fn add_read(&mut self, rule: &HelpRule) {
        let trail = self.trail;
        for step in &trail.steps {
            match step.from {
                StatePlace::At(from) if step.jumps => {
                    self.at = from;
                    self.add(rule, rule.first);
                }
                _ => {}
            }
        }
        self.add(rule, rule.each);
    }

    fn add_rule(&mut self, rule: &HelpRule) {
        self.number = 0;
        let name = self.source.new_label(names_of(rule.fresh)).as_bytes();
        self.names[M] = name;
        self.names[N] = tail(name);
        self.names[C] = cursor_text(self.first_cursor());
        self.names[L] = last_word(self.source.instruction(self.refusal.pc));
        if let Per::Label = rule.per {
            self.add_labels(rule);
        } else {
            self.add_all(rule);
        }
    }

    // Adds the remedies of the rules of a table.
    fn add_rules(&mut self, rules: &[HelpRule]) {
        let sort = self.refusal.doubt.sort;
        for rule in rules {
            if rule.is_of(sort) && self.is_made_by(rule.made) && self.is_when(rule.when) {
                self.add_rule(rule);
            }
        }
    }

    /// Finds the remedies of the refusal, the likeliest first.
    pub fn find_remedies(&mut self) {
        for rules in &rule_tables() {
            self.add_rules(rules);
        }
    }
}
