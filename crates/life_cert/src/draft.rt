//! What the lines of a certificate text say, taken one after another.

ghost use Rattle.std.specs.Prelude.{◌≡◌, ◌<◌, ◌≤◌, ◌++◌, ◌∷◌, ◌-◌, [], true, false, IfOk, IfErr, IfSome, OnOk, MatchResult, Some, None, length, replicate, codes};
ghost use Rattle.life_cert.specs.Prelude.{after_token, IsFormed, seen, seen_some, is_two, IsNoState, IsSameNumber, NoStateIsIn, NoStateOrNoneIsIn, IsState, IsStateOrNone};
ghost use Rattle.life_cert.specs.StateSums.{state_sum};
ghost use Rattle.life_cert.specs.declared.refusal.CertRefusal.TheVariants.{Fault, NoMemory};

use crate::due::{CertLine, Due, due_line};
use crate::print::is_two;
use crate::refusal::{CertCode, CertRefusal};
use crate::repeats::first_with;
use crate::state_sum::state_sum;
use crate::state_text::read_state;
use crate::unread::Unread;
use byte_text::{TakesLines, after_token, all_printable, begins, decimal_u32, is_text, tail};
use life_check::CertVersion;
use life_state::State;
use std::alloc::{AllocError, Global};

/// What the lines so far say.
#[derive(Drop)]
pub(crate) struct CertDraft {
    pub(crate) due: Due,
    pub(crate) version: CertVersion,
    pub(crate) slim: bool,
    pub(crate) idle: Option<State>,
    pub(crate) ready: Option<State>,
    pub(crate) at: Vec<Option<State>>,
    /// In version 2, the sum of each line of `at`.
    pub(crate) sums: Vec<u32>,
}

fn no_state(number: usize) -> CertRefusal
    ensures { result ≡ Fault number CertCode.NotState }
{
    CertRefusal::Fault {
        line: number,
        code: CertCode::NotState,
    }
}

/// The state that stands behind the first word of a line.
fn state_behind(alloc: Global, number: usize, line: &[u8]) -> Result<State, CertRefusal>
    ensures { MatchResult result (λ s. IsState (after_token line.now) (seen s)) (λ e. IsNoState number (NoStateIsIn (after_token line.now)) e) }
{
    let rest = after_token(line);
    if !begins(rest, b' ') {
        return Err(no_state(number));
    }
    match read_state(alloc, tail(rest)) {
        Ok(Some(state)) => Ok(state),
        Ok(None) => Err(no_state(number)),
        Err(error) => Err(error),
    }
}

fn state_or_none(alloc: Global, number: usize, line: &[u8]) -> Result<Option<State>, CertRefusal>
    ensures { MatchResult result (λ o. IsStateOrNone (after_token line.now) (seen_some o)) (λ e. IsNoState number (NoStateOrNoneIsIn (after_token line.now)) e) }
{
    if is_text(after_token(line), b" none") {
        return Ok(None);
    }
    match state_behind(alloc, number, line) {
        Ok(state) => Ok(Some(state)),
        Err(error) => Err(error),
    }
}

/// The number of a line, where it stands behind `same`.
fn same_number(rest: &[u8]) -> Option<usize>
    ensures { IsSameNumber rest.now result }
{
    let mut unread = Unread { bytes: rest };
    if !unread.take(b" same ") {
        return None;
    }
    match decimal_u32(unread.bytes) {
        Some(number) => Some(number as usize),
        None => None,
    }
}

impl CertDraft {
    ghost use Rattle.byte_text.specs.Bytes.{all_printable};
    ghost use Rattle.life_cert.specs.Drafts.{IsLineAdded, IsCertDraft, IsToldAt, NoneIsSaid, SaysState, before, begun_version, seen_draft, with_count, with_vars};
    ghost use Rattle.life_cert.specs.Reading.{at_begin, due_line, due_after, LacksState};

    pub(crate) fn new(alloc: Global) -> CertDraft
        ensures draft { IsCertDraft result }
        ensures begun { before result ≡ at_begin }
    {
        CertDraft {
            due: Due::Header,
            version: CertVersion::One,
            slim: false,
            idle: None,
            ready: None,
            at: Vec::new(alloc),
            sums: Vec::new(alloc),
        }
    }

    /// The state that the line of this number says, if it says one and no other line's number.
    fn told_at(&self, number: usize) -> Option<State>
        requires draft { IsCertDraft self.now }
        requires two { is_two self.now.version ≡ true }
        ensures { IsToldAt (seen_draft self.now) number (seen_some result) }
    {
        if number >= self.at.len() {
            return None;
        }
        match self.at[number] {
            None => None,
            Some(state) => {
                match first_with(self.at.as_slice(), self.sums.as_slice(), number, &state) {
                    None => Some(state),
                    Some(_) => None,
                }
            }
        }
    }

    /// The state that a line says by the number of the one that has it.
    fn state_again(&self, number: usize, rest: &[u8], other: usize) -> Result<State, CertRefusal>
        requires draft { IsCertDraft self.now }
        requires two { is_two self.now.version ≡ true }
        requires other { IsSameNumber rest.now (Some other) }
        ensures { MatchResult result (λ s. SaysState true (seen_draft self.now) rest.now (seen s)) (λ e. IsNoState number (NoneIsSaid true (seen_draft self.now) rest.now) e) }
    {
        match self.told_at(other) {
            Some(state) => Ok(state),
            None => Err(no_state(number)),
        }
    }

    /// The state of a line, where it stands on no earlier one.
    fn if_new(&self, number: usize, rest: &[u8], state: State) -> Result<State, CertRefusal>
        requires draft { IsCertDraft self.now }
        requires two { is_two self.now.version ≡ true }
        requires other { IsSameNumber rest.now None }
        requires here { IsState rest.now (seen state) }
        ensures { MatchResult result (λ s. SaysState true (seen_draft self.now) rest.now (seen s)) (λ e. IsNoState number (NoneIsSaid true (seen_draft self.now) rest.now) e) }
    {
        match first_with(
            self.at.as_slice(),
            self.sums.as_slice(),
            self.at.len(),
            &state,
        ) {
            None => Ok(state),
            Some(_) => Err(no_state(number)),
        }
    }

    /// The state that stands behind the first word of a line, and on no earlier line.
    fn new_state(&self, alloc: Global, number: usize, line: &[u8]) -> Result<State, CertRefusal>
        requires draft { IsCertDraft self.now }
        requires two { is_two self.now.version ≡ true }
        requires other { IsSameNumber (after_token line.now) None }
        ensures { MatchResult result (λ s. SaysState true (seen_draft self.now) (after_token line.now) (seen s)) (λ e. IsNoState number (NoneIsSaid true (seen_draft self.now) (after_token line.now)) e) }
    {
        match state_behind(alloc, number, line) {
            Ok(state) => self.if_new(number, after_token(line), state),
            Err(error) => Err(error),
        }
    }

    /// The state that a line says, itself or by the number of the line that has it.
    fn said_state(&self, alloc: Global, number: usize, line: &[u8]) -> Result<State, CertRefusal>
        requires draft { IsCertDraft self.now }
        ensures { MatchResult result (λ s. SaysState (is_two self.now.version) (seen_draft self.now) (after_token line.now) (seen s)) (λ e. IsNoState number (NoneIsSaid (is_two self.now.version) (seen_draft self.now) (after_token line.now)) e) }
    {
        if !is_two(self.version) {
            return state_behind(alloc, number, line);
        }
        match same_number(after_token(line)) {
            Some(other) => self.state_again(number, after_token(line), other),
            None => self.new_state(alloc, number, line),
        }
    }

    /// Notes the sum of an instruction's state; those before it that have no line have none.
    fn add_sum(&mut self, pc: usize, state: &State) -> Result<(), AllocError>
        requires after { length self.old.sums.items ≤ pc }
        ensures others { OnOk result (self.new ≡ record (self.old) { sums = self.new.sums }) }
        ensures items { OnOk result (self.new.sums.items ≡ (self.old.sums.items ++ replicate (pc - length self.old.sums.items) 0) ++ state_sum (seen state.now) ∷ []) }
    {
        self.sums.resize(pc, 0)?;
        self.sums.push(state_sum(state))?;
        Ok(())
    }

    /// Gives an instruction its state; those before it that have no line have none.
    fn add_state(&mut self, pc: usize, state: State) -> Result<(), AllocError>
        requires after { length self.old.at.items ≤ pc }
        requires few { pc < 1024 }
        requires sums { is_two self.old.version ≡ true → length self.old.sums.items ≡ length self.old.at.items }
        ensures others { OnOk result (self.new ≡ record (self.old) { due = due_after (CertLine.Instruction pc); at = self.new.at; sums = self.new.sums }) }
        ensures kept { OnOk result (is_two self.old.version ≡ false → self.new.sums.items ≡ self.old.sums.items) }
        ensures sums { OnOk result (is_two self.old.version ≡ true → self.new.sums.items ≡ (self.old.sums.items ++ replicate (pc - length self.old.sums.items) 0) ++ state_sum (seen state) ∷ []) }
        ensures items { OnOk result (self.new.at.items ≡ (self.old.at.items ++ replicate (pc - length self.old.at.items) None) ++ Some state ∷ []) }
    {
        if is_two(self.version) {
            self.add_sum(pc, &state)?;
        }
        self.at.resize(pc, None)?;
        self.at.push(Some(state))?;
        self.due = Due::States(pc + 1);
        Ok(())
    }

    fn add_header(&mut self, two: bool, slim: bool)
        ensures { self.new ≡ record (self.old) { due = due_after (CertLine.Header two slim); version = begun_version two; slim = slim } }
    {
        self.slim = slim;
        if two {
            self.version = CertVersion::Two {
                pools: 0,
                brigades: 0,
                code: 1,
            };
            self.due = Due::Vars;
        } else {
            self.version = CertVersion::One;
            self.due = Due::Idle;
        }
    }

    fn add_vars(&mut self, pools: u8, brigades: u8)
        ensures { self.new ≡ record (self.old) { due = Due.Code; version = with_vars pools brigades } }
    {
        self.version = CertVersion::Two {
            pools,
            brigades,
            code: 1,
        };
        self.due = Due::Code;
    }

    fn add_count(&mut self, count: u16)
        ensures { self.new ≡ record (self.old) { due = Due.Idle; version = with_count self.old.version count } }
    {
        if let CertVersion::Two { code, .. } = &mut self.version {
            *code = count;
        }
        self.due = Due::Idle;
    }

    /// Adds what the line that stands there says.
    fn add(
        &mut self,
        alloc: Global,
        number: usize,
        bytes: &[u8],
        line: CertLine,
    ) -> Result<(), CertRefusal>
        requires draft { IsCertDraft self.old }
        requires printable { all_printable bytes.now ≡ true }
        requires due { due_line self.old.due bytes.now ≡ Some line }
        ensures draft { OnOk result (IsCertDraft self.new) }
        ensures added { OnOk result (IsLineAdded self.old bytes.now self.new) }
        ensures refused { IfErr result (λ e. IsNoState number (LacksState (before self.old) (Some line) (after_token bytes.now)) e) }
    {
        match line {
            CertLine::Header { two, slim } => self.add_header(two, slim),
            CertLine::Vars(pools, brigades) => self.add_vars(pools, brigades),
            CertLine::Code(count) => self.add_count(count),
            CertLine::Idle => {
                self.idle = state_or_none(alloc, number, bytes)?;
                self.due = Due::Ready;
            }
            CertLine::Ready => {
                self.ready = state_or_none(alloc, number, bytes)?;
                self.due = Due::States(0);
            }
            CertLine::Instruction(pc) => {
                let state = self.said_state(alloc, number, bytes)?;
                self.add_state(pc, state)?;
            }
            CertLine::End => self.due = Due::Nothing,
        }
        Ok(())
    }
}

impl TakesLines for CertDraft {
    ghost use Rattle.life_cert.specs.Drafts.{IsCertDraft, LineAdded};

    type Refusal = CertRefusal;

    ghost can_take = { λ draft. IsCertDraft draft };

    ghost takes = { λ draft number line answer next. LineAdded draft number line answer next };

    fn take_line(&mut self, alloc: Global, number: usize, line: &[u8]) -> Result<(), CertRefusal> {
        if !all_printable(line) {
            return Err(CertRefusal::Fault {
                line: number,
                code: CertCode::BadByte,
            });
        }
        match due_line(self.due, line) {
            Some(due) => self.add(alloc, number, line, due),
            None => Err(CertRefusal::Fault {
                line: number,
                code: CertCode::NotDue,
            }),
        }
    }
}
