//! Calls on the host of chains, each run to its end.

ghost use Rattle.std.specs.Prelude.{◌≡◌, ◌↔◌, ℕ, List, IfErr, IsTrue, OnOk, None, Some};
ghost use Rattle.http_front.specs.Prelude.{Program, HostView, IsLack, LacksFor, OnlyEventsOf, IsAlive, Refines, StepsAtMost, EndsRequest, RunsCall, ended_of, lack_of};

use crate::fault::FrontKind;
use filter_chain::{Cause, Files, Host, Refusal, Rings, Stepped, Stored};
use http_message::Failure;
use module_code::Status;

/// How a call ended.
#[derive(Clone, Copy, Debug)]
pub enum CallEnd {
    /// It succeeded.
    Succeeded,
    /// It failed.
    Failed(Failure),
    /// It did not end: the connection broke.
    Broke(Failure),
}

pub(crate) fn succeeded(how: CallEnd) -> bool
    ensures { IsTrue result ↔ how ≡ CallEnd.Succeeded }
{
    matches!(how, CallEnd::Succeeded)
}

/// What a refusal lacks, memory or names, is an error.
pub(crate) fn unless_lack(refusal: Refusal) -> Result<(), FrontKind>
    ensures ok { OnOk result (lack_of refusal ≡ None) }
    ensures err { IfErr result IsLack }
    ensures lack { IfErr result (λ e. lack_of refusal ≡ Some e) }
{
    match refusal {
        Refusal::NoMemory => Err(FrontKind::NoMemory),
        Refusal::NamesSpent => Err(FrontKind::NamesSpent),
        _ => Ok(()),
    }
}

pub(crate) fn how_ended(answer: Result<Stepped, Refusal>) -> CallEnd
    ensures { result ≡ ended_of answer }
{
    match answer {
        Ok(Stepped::CallEnded(Status::Success)) => CallEnd::Succeeded,
        Ok(Stepped::CallEnded(Status::Fail)) => CallEnd::Failed(Failure::Filter),
        Ok(Stepped::Went | Stepped::Fault { .. }) => {
            CallEnd::Broke(Failure::Refused(Refusal::Broken(Cause::Faulted)))
        }
        Err(refusal) => CallEnd::Broke(Failure::Refused(refusal)),
    }
}

/// Makes steps until one answers something else than that it went.
pub(crate) fn run_call<F: Files + Drop, R: Rings<Stored> + Drop>(
    host: &mut Host<F, R>,
    number: u64,
) -> CallEnd
    requires { IsAlive F.device host.old }
    ensures leads { Refines F.device host.old host.new (λ (b : ℕ) (c : List Program) (s t : HostView). RunsCall b c number s result t) }
    ensures beside { (from : Host F R R.Rings) → OnlyEventsOf F.device from number host.old → OnlyEventsOf F.device from number host.new }
{
    how_ended(host.run(number))
}

/// Ends the request.
pub(crate) fn end_request<F: Files + Drop, R: Rings<Stored> + Drop>(
    host: &mut Host<F, R>,
    number: u64,
) -> Result<(), FrontKind>
    requires { IsAlive F.device host.old }
    ensures leads { Refines F.device host.old host.new (λ (b : ℕ) (c : List Program) (s t : HostView). OnOk result (EndsRequest b c number s t)) }
    ensures err { IfErr result IsLack }
    ensures lacks { (from : Host F R R.Rings) → OnlyEventsOf F.device from number host.old → IfErr result (λ e. LacksFor F.device from number e host.new) }
    ensures few { (from : Host F R R.Rings) (n : ℕ) → StepsAtMost F.device from number n host.old → StepsAtMost F.device from number n host.new }
{
    match host.end_request(number) {
        Ok(()) => Ok(()),
        Err(refusal) => unless_lack(refusal),
    }
}
