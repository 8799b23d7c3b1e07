//! How a request for a file ends on the host of chains, and the host as what handles requests.

ghost use Rattle.std.specs.Prelude.{◌≡◌, ℕ, List, IfOk, IfErr};
ghost use Rattle.http_front.specs.Prelude.{Program, HostView, EndsBareIn, FinishesIn, MakesSlice, Way, calls_after, IsLack, IsUnserved, LacksFor, OnlyEventsOf, IsAlive, Refines};
ghost use Rattle.http_front.specs.Prelude.{StepsAtMost, TakesOutput, unopened};

use crate::fault::FrontKind;
use crate::handler::{Handler, RequestOutcome, Slice};
use crate::running::{CallEnd, end_request};
use crate::slicing::{begin_request, go_on_request, handle_request};
use crate::task::RequestTask;
use filter_chain::{BlockBytes, Files, Host, Refusal, Rings, Stored};
use http_message::{Failure, Method, StatusCode};
use std::alloc::Global;

/// 500 for a failure; 404 where there is none.
pub(crate) fn without_body(alloc: Global, failure: Option<Failure>) -> RequestOutcome
    ensures { IsUnserved failure result }
{
    let status = match failure {
        None => StatusCode::NotFound,
        Some(_) => StatusCode::InternalServerError,
    };
    RequestOutcome {
        status,
        body: BlockBytes::new(alloc),
        failure,
    }
}

/// The failure where a file is not opened: none where it is not there.
pub(crate) fn unopened(refusal: Refusal) -> Option<Failure>
    ensures { result ≡ unopened refusal }
{
    match refusal {
        Refusal::NoFile => None,
        _ => Some(Failure::Refused(refusal)),
    }
}

/// Takes the output.
fn output<F: Files + Drop, R: Rings<Stored> + Drop>(
    alloc: Global,
    host: &mut Host<F, R>,
    number: u64,
) -> RequestOutcome
    requires { IsAlive F.device host.old }
    ensures leads { Refines F.device host.old host.new (λ (b : ℕ) (c : List Program) (s t : HostView). TakesOutput b c number s result t) }
    ensures few { (from : Host F R R.Rings) (n : ℕ) → StepsAtMost F.device from number n host.old → StepsAtMost F.device from number n host.new }
{
    match host.take_output(number) {
        Ok(body) => RequestOutcome {
            status: StatusCode::Success,
            body,
            failure: None,
        },
        Err(refusal) => without_body(alloc, Some(Failure::Refused(refusal))),
    }
}

/// Ends the request without content.
pub(crate) fn finish_without_body<F: Files + Drop, R: Rings<Stored> + Drop>(
    alloc: Global,
    host: &mut Host<F, R>,
    number: u64,
    failure: Option<Failure>,
) -> Result<Slice<RequestTask>, FrontKind>
    requires { IsAlive F.device host.old }
    ensures leads { MakesSlice F.device number (λ (way : Way) (b : ℕ) (c : List Program). EndsBareIn way b c number failure) host.old result host.new }
    ensures err { IfErr result IsLack }
    ensures lacks { (from : Host F R R.Rings) → OnlyEventsOf F.device from number host.old → IfErr result (λ e. LacksFor F.device from number e host.new) }
    ensures few { (from : Host F R R.Rings) (n : ℕ) → StepsAtMost F.device from number n host.old → StepsAtMost F.device from number n host.new }
    ensures calls { IfOk result (λ r. calls_after r ≡ 0) }
{
    end_request(host, number)?;
    Ok(Slice::Done(without_body(alloc, failure)))
}

/// Finishes a request whose last call ended so.
pub(crate) fn finish<F: Files + Drop, R: Rings<Stored> + Drop>(
    alloc: Global,
    host: &mut Host<F, R>,
    number: u64,
    how: CallEnd,
) -> Result<Slice<RequestTask>, FrontKind>
    requires { IsAlive F.device host.old }
    ensures leads { MakesSlice F.device number (λ (way : Way) (b : ℕ) (c : List Program). FinishesIn way b c number how) host.old result host.new }
    ensures err { IfErr result IsLack }
    ensures lacks { (from : Host F R R.Rings) → OnlyEventsOf F.device from number host.old → IfErr result (λ e. LacksFor F.device from number e host.new) }
    ensures few { (from : Host F R R.Rings) (n : ℕ) → StepsAtMost F.device from number n host.old → StepsAtMost F.device from number n host.new }
    ensures calls { IfOk result (λ r. calls_after r ≡ 0) }
{
    match how {
        CallEnd::Succeeded => {
            let outcome = output(alloc, host, number);
            end_request(host, number)?;
            Ok(Slice::Done(outcome))
        }
        CallEnd::Failed(why) => finish_without_body(alloc, host, number, Some(why)),
        CallEnd::Broke(why) => Ok(Slice::Done(without_body(alloc, Some(why)))),
    }
}

impl<F: Files + Drop, R: Rings<Stored> + Drop> Handler for Host<F, R> {
    ghost use Rattle.http_front.specs.Among.{HandlesAmong, RestsAmong};
    ghost use Rattle.http_front.specs.Driven.{LacksFor, NoEventsOf, OnlyEventsOf, IsAlive, Handles, StepsAtMost};
    ghost use Rattle.http_front.specs.Apart.{apart_beside, apart_same, none_made, own_same};
    ghost use Rattle.http_front.specs.Before.{among_later, rests_later};

    type Task = RequestTask;

    ghost is_open = { λ host number. IsAlive F.device host };

    ghost apart = { λ old number new. NoEventsOf F.device old number new };

    ghost beside_self = { λ s number. own_same F.device number s };

    ghost steps = { λ old number n new. StepsAtMost F.device old number n new };

    ghost steps_none = { λ s number n. none_made F.device number s n };

    ghost apart_self = { λ s number. apart_same F.device number s };

    ghost apart_on = { λ from old new number other. apart_beside F.device number other from old new };

    ghost beside = { λ old number new. OnlyEventsOf F.device old number new };

    ghost lacks = { λ old number method file e new. LacksFor F.device old number e new };

    ghost lacks_rest = { λ old number task e new. LacksFor F.device old number e new };

    ghost handles = { λ old number method file o new. Handles F.device old number method file o new };

    ghost among = { λ old number method file o new. HandlesAmong F.device old number method file o new };

    ghost rests = { λ old number task o new. RestsAmong F.device old number task o new };

    ghost among_later = { λ old now new number method file o. among_later F.device number old now new method file o };

    ghost rests_later = { λ old now new number task o. rests_later F.device number old now new task o };

    fn handle(
        &mut self,
        alloc: Global,
        number: u64,
        method: Method,
        file: &[u8],
    ) -> Result<RequestOutcome, FrontKind> {
        handle_request(alloc, self, number, method, file)
    }

    fn begin(
        &mut self,
        alloc: Global,
        number: u64,
        method: Method,
        file: &[u8],
    ) -> Result<Slice<RequestTask>, FrontKind> {
        begin_request(alloc, self, number, method, file)
    }

    fn go_on(
        &mut self,
        alloc: Global,
        number: u64,
        task: RequestTask,
    ) -> Result<Slice<RequestTask>, FrontKind> {
        go_on_request(alloc, self, number, task)
    }

    fn give_back(&mut self, body: BlockBytes) {
        if !body.as_slice().is_empty() {
            self.give_back_output(body);
        }
    }
}
