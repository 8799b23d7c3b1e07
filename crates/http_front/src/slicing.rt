//! A request for a file on the host of chains, in slices. Between two of them others may be served.

ghost use Rattle.std.specs.Prelude.{◌≡◌, ◌↔◌, ◌+◌, ◌<◌, ◌≤◌, ◌^◌, ℕ, List, length, Ok, Some, IfOk, IfErr, IsTrue};
ghost use Rattle.http_front.specs.Prelude.{Program, HostView, IsLack, slice_steps, IsAlive, LacksFor, OnlyEventsOf, Refines, StepsAtMost, ComesOf, CarriesIn, ComesIn, OpensNext};
ghost use Rattle.http_front.specs.Prelude.{MakesSlice, OpensUnlessIn, Rests, RestsBehind, RunsSlice, Way, brigades_left, calls_after, calls_left};

use crate::fault::FrontKind;
use crate::feeding::{next_brigade, wanted};
use crate::handler::{RequestOutcome, Slice};
use crate::requests::{finish, finish_without_body, unopened, without_body};
use crate::running::{CallEnd, how_ended, run_call, succeeded, unless_lack};
use crate::task::{FileRest, RequestTask};
use filter_chain::{Files, Host, Refusal, Rings, Stepped, Stored};
use http_message::{Failure, Method};
use std::alloc::{AllocError, Global};

/// How many steps of a call are made in a row, at most: some hundred microseconds.
pub const SLICE_STEPS: u64 = 4000;

fn went(answer: &Result<Stepped, Refusal>) -> bool
    ensures { IsTrue result ↔ answer.now ≡ Ok Stepped.Went }
{
    matches!(answer, Ok(Stepped::Went))
}

/// Makes a slice of the steps of a call. Answers how it ended, if it did.
fn step_slice<F: Files + Drop, R: Rings<Stored> + Drop>(
    host: &mut Host<F, R>,
    number: u64,
) -> Option<CallEnd>
    requires { IsAlive F.device host.old }
    ensures leads { (way : Way) → Refines F.device host.old host.new (λ (b : ℕ) (c : List Program) (s t : HostView). RunsSlice way b c number result s t) }
    ensures few { (from : Host F R R.Rings) (n : ℕ) → StepsAtMost F.device from number n host.old → StepsAtMost F.device from number (n + slice_steps) host.new }
{
    let answer = host.step_up_to(number, SLICE_STEPS);
    if went(&answer) {
        return None;
    }
    Some(how_ended(answer))
}

/// Goes on after a call that ended so: with the next brigade, whose call is then under way, or to the outcome.
fn carry_on<F: Files + Drop, R: Rings<Stored> + Drop>(
    alloc: Global,
    host: &mut Host<F, R>,
    number: u64,
    how: CallEnd,
    rest: Option<FileRest>,
) -> Result<Slice<RequestTask>, FrontKind>
    requires { IsAlive F.device host.old }
    ensures leads { MakesSlice F.device number (λ (way : Way) (b : ℕ) (c : List Program). CarriesIn way b c number how (brigades_left rest)) host.old result host.new }
    ensures err { IfErr result IsLack }
    ensures lacks { (from : Host F R R.Rings) → OnlyEventsOf F.device from number host.old → IfErr result (λ e. LacksFor F.device from number e host.new) }
    ensures few { (from : Host F R R.Rings) (n : ℕ) → StepsAtMost F.device from number n host.old → StepsAtMost F.device from number n host.new }
    ensures calls { IfOk result (λ r. calls_after r ≤ length (brigades_left rest)) }
{
    let Some(rest) = rest else {
        return finish(alloc, host, number, how);
    };
    if !succeeded(how) {
        return finish(alloc, host, number, how);
    }
    let (pieces, left) = next_brigade(alloc, rest)?;
    match host.bring(number, pieces) {
        Ok(()) => Ok(Slice::Works(RequestTask::Brings(left))),
        Err(refusal) => {
            unless_lack(refusal)?;
            let failed = CallEnd::Failed(Failure::Refused(refusal));
            finish(alloc, host, number, failed)
        }
    }
}

/// Goes on with a request whose `init` ended so: opens the file, unless the connection broke.
fn open_slice<F: Files + Drop, R: Rings<Stored> + Drop>(
    alloc: Global,
    host: &mut Host<F, R>,
    number: u64,
    init: CallEnd,
    method: Method,
    name: &[u8],
) -> Result<Slice<RequestTask>, FrontKind>
    requires { IsAlive F.device host.old }
    ensures leads { MakesSlice F.device number (λ (way : Way) (b : ℕ) (c : List Program). OpensUnlessIn way b c number init method name.now) host.old result host.new }
    ensures err { IfErr result IsLack }
    ensures lacks { (from : Host F R R.Rings) → OnlyEventsOf F.device from number host.old → IfErr result (λ e. LacksFor F.device from number e host.new) }
    ensures few { (from : Host F R R.Rings) (n : ℕ) → StepsAtMost F.device from number n host.old → StepsAtMost F.device from number n host.new }
    ensures calls { IfOk result (λ r. calls_after r ≤ 2 ^ 48) }
{
    if let CallEnd::Broke(why) = init {
        return Ok(Slice::Done(without_body(alloc, Some(why))));
    }
    match host.open_file(number, name) {
        Ok(file) => carry_on(alloc, host, number, init, wanted(method, file)),
        Err(refusal) => {
            unless_lack(refusal)?;
            finish_without_body(alloc, host, number, unopened(refusal))
        }
    }
}

/// A request whose `init` is under way.
fn opens_later(alloc: Global, method: Method, name: &[u8]) -> Result<RequestTask, AllocError>
    ensures { IfOk result (λ task. OpensNext method name.now task) }
{
    let mut copy = Vec::new(alloc);
    copy.extend_from_slice(name)?;
    Ok(RequestTask::Opens { method, name: copy })
}

/// Begins a request, makes a slice of its `init`, and goes on where that ended.
fn begin_init<F: Files + Drop, R: Rings<Stored> + Drop>(
    alloc: Global,
    host: &mut Host<F, R>,
    number: u64,
    method: Method,
    name: &[u8],
) -> Result<Slice<RequestTask>, FrontKind>
    requires { IsAlive F.device host.old }
    ensures leads { MakesSlice F.device number (λ (way : Way) (b : ℕ) (c : List Program). ComesIn way b c number method name.now) host.old result host.new }
    ensures err { IfErr result IsLack }
    ensures lacks { (from : Host F R R.Rings) → OnlyEventsOf F.device from number host.old → IfErr result (λ e. LacksFor F.device from number e host.new) }
    ensures few { (from : Host F R R.Rings) (n : ℕ) → StepsAtMost F.device from number n host.old → StepsAtMost F.device from number (n + slice_steps) host.new }
{
    if let Err(refusal) = host.begin(number) {
        unless_lack(refusal)?;
        return Ok(Slice::Done(without_body(alloc, Some(Failure::Refused(refusal)))));
    }
    match step_slice(host, number) {
        Some(init) => open_slice(alloc, host, number, init, method, name),
        None => Ok(Slice::Works(opens_later(alloc, method, name)?)),
    }
}

/// Goes on after the call that was under way, which ended so.
fn end_call<F: Files + Drop, R: Rings<Stored> + Drop>(
    alloc: Global,
    host: &mut Host<F, R>,
    number: u64,
    task: RequestTask,
    how: CallEnd,
) -> Result<Slice<RequestTask>, FrontKind>
    requires { IsAlive F.device host.old }
    ensures leads { MakesSlice F.device number (λ (way : Way) (b : ℕ) (c : List Program). RestsBehind way b c number task how) host.old result host.new }
    ensures err { IfErr result IsLack }
    ensures lacks { (from : Host F R R.Rings) → OnlyEventsOf F.device from number host.old → IfErr result (λ e. LacksFor F.device from number e host.new) }
    ensures few { (from : Host F R R.Rings) (n : ℕ) → StepsAtMost F.device from number n host.old → StepsAtMost F.device from number n host.new }
    ensures calls { IfOk result (λ r. calls_after r < calls_left task) }
{
    match task {
        RequestTask::Opens { method, name } => {
            open_slice(alloc, host, number, how, method, name.as_slice())
        }
        RequestTask::Brings(rest) => carry_on(alloc, host, number, how, rest),
    }
}

/// Makes a slice of the call that is under way, and goes on where that ended: to the beginning of the next call, or to the outcome.
pub(crate) fn go_on_request<F: Files + Drop, R: Rings<Stored> + Drop>(
    alloc: Global,
    host: &mut Host<F, R>,
    number: u64,
    task: RequestTask,
) -> Result<Slice<RequestTask>, FrontKind>
    requires { IsAlive F.device host.old }
    ensures leads { MakesSlice F.device number (λ (way : Way) (b : ℕ) (c : List Program). Rests way b c number task) host.old result host.new }
    ensures err { IfErr result IsLack }
    ensures lacks { (from : Host F R R.Rings) → OnlyEventsOf F.device from number host.old → IfErr result (λ e. LacksFor F.device from number e host.new) }
    ensures few { (from : Host F R R.Rings) (n : ℕ) → StepsAtMost F.device from number n host.old → StepsAtMost F.device from number (n + slice_steps) host.new }
{
    match step_slice(host, number) {
        None => Ok(Slice::Works(task)),
        Some(how) => end_call(alloc, host, number, task, how),
    }
}

/// Begins a request for a file, with a slice of its `init` and one of the call of its first brigade.
pub(crate) fn begin_request<F: Files + Drop, R: Rings<Stored> + Drop>(
    alloc: Global,
    host: &mut Host<F, R>,
    number: u64,
    method: Method,
    name: &[u8],
) -> Result<Slice<RequestTask>, FrontKind>
    requires { IsAlive F.device host.old }
    ensures leads { MakesSlice F.device number (λ (way : Way) (b : ℕ) (c : List Program). ComesIn way b c number method name.now) host.old result host.new }
    ensures err { IfErr result IsLack }
    ensures lacks { (from : Host F R R.Rings) → OnlyEventsOf F.device from number host.old → IfErr result (λ e. LacksFor F.device from number e host.new) }
    ensures few { (from : Host F R R.Rings) (n : ℕ) → StepsAtMost F.device from number n host.old → StepsAtMost F.device from number (n + slice_steps + slice_steps) host.new }
{
    let slice = begin_init(alloc, host, number, method, name)?;
    match slice {
        Slice::Works(task) => go_on_request(alloc, host, number, task),
        Slice::Done(outcome) => Ok(Slice::Done(outcome)),
    }
}

/// Handles a request for a file: from its beginning on, each call that is under way is run to its end.
pub(crate) fn handle_request<F: Files + Drop, R: Rings<Stored> + Drop>(
    alloc: Global,
    host: &mut Host<F, R>,
    number: u64,
    method: Method,
    name: &[u8],
) -> Result<RequestOutcome, FrontKind>
    requires { IsAlive F.device host.old }
    ensures leads { Refines F.device host.old host.new (λ (b : ℕ) (c : List Program) (s t : HostView). IfOk result (λ o. ComesOf b c number method name.now s o t)) }
    ensures beside { (from : Host F R R.Rings) → OnlyEventsOf F.device from number host.old → OnlyEventsOf F.device from number host.new }
    ensures err { IfErr result IsLack }
    ensures lacks { (from : Host F R R.Rings) → OnlyEventsOf F.device from number host.old → IfErr result (λ e. LacksFor F.device from number e host.new) }
{
    let mut slice = begin_init(alloc, host, number, method, name)?;
    loop {
        match slice {
            Slice::Done(outcome) => return Ok(outcome),
            Slice::Works(task) => {
                let how = run_call(host, number);
                slice = end_call(alloc, host, number, task, how)?;
            }
        }
    }
}
