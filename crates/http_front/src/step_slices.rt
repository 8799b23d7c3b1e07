//! A step of a connection, in slices.

ghost use Rattle.std.specs.Prelude.{◌≡◌, ◌≤◌, ◌*◌, ℕ, Bool, List, [], length, IfOk, IfErr};
ghost use Rattle.http_front.specs.Prelude.{RequestHead, IsRequestAt, IsRequestWithin, method_of, IsHeadFound, slice_steps, IsLack, LacksNamesAt, Passes, LacksAnswer, text_of, head_limit};
ghost use Rattle.http_front.specs.Prelude.{fields_limit, BeginsHead, IsAskedBy, IsUnderWay, LacksSlice, Sends, StepMade, StepsFrom, Wants, most_steps, Site};

use crate::answering::{bad_reply, without_body};
use crate::fault::FrontKind;
use crate::handler::{Handler, RequestOutcome, Slice};
use crate::pace::Pace;
use crate::response::ResponseText;
use crate::steps::{FIELDS_LIMIT, HEAD_LIMIT, ServeStep, ends_within, front};
use crate::texts::put_reply;
use crate::under_way::{Asked, StepSlice, UnderWay, asked_by, reply_of, span_in};
use crate::wanted::{SiteTarget, wanted_of};
use http_message::{Clock, HeadLook, Method, Site, look_at};
use httparse::spans::{EMPTY_HEADER_SPAN, HeaderSpan, RequestSpans};
use std::alloc::{AllocError, Global};

/// Makes the text of the response to a head with this outcome. The clock is told of it. A body that is copied goes back to the handler.
fn send<H: Handler, K: Clock>(
    alloc: Global,
    seen: &[u8],
    asked: Asked,
    outcome: RequestOutcome,
    handler: &mut H,
    clock: &mut K,
    text: &mut ResponseText,
) -> Result<ServeStep, AllocError>
    ensures still { handler.new ≡ handler.old }
    ensures clock { (from : K) → Passes K.tells from clock.old → Passes K.tells from clock.new }
    ensures ok { IfOk result (λ s. (h : RequestHead) → IsAskedBy seen.now asked h → Sends K.tells clock.old h outcome asked.head.len s (text_of text.new) clock.new) }
{
    let mut reply = reply_of(asked, outcome);
    let closes = reply.closes;
    let method = span_in(asked.head.method, seen);
    let target = span_in(asked.head.path, seen);
    put_reply(alloc, method, target, &mut reply, clock, text)?;
    handler.give_back(reply.body);
    if closes {
        return Ok(ServeStep::Closes(asked.head.len));
    }
    Ok(ServeStep::Stays(asked.head.len))
}

/// Begins what a head asks for.
fn begin_wanted<H: Handler, P: Pace<H>>(
    alloc: Global,
    wanted: SiteTarget<'_>,
    method: Method,
    handler: &mut H,
    number: u64,
) -> Result<Slice<P::Task>, FrontKind>
    requires { H.is_open handler.old number }
    ensures open { H.is_open handler.new number }
    ensures beside { (from : H) → H.beside from number handler.old → H.beside from number handler.new }
    ensures ok { IfOk result (λ s. (site : Site) (h : RequestHead) → Wants site h wanted.entry → method ≡ method_of h.method
        → BeginsHead site (λ old. P.comes old number) (λ old. P.rests old number) h handler.old s handler.new) }
    ensures err { IfErr result (λ e. IsLack e × (e ≡ FrontKind.NamesSpent → (site : Site) (h : RequestHead) → Wants site h wanted.entry → method ≡ method_of h.method
        → LacksNamesAt (λ old. H.lacks old number) site handler.old h handler.new)) }
    ensures few { P.steps handler.old number (2 * slice_steps) handler.new }
{
    match wanted {
        SiteTarget::Status(status) => Ok(Slice::Done(without_body(alloc, status))),
        SiteTarget::File(file) => P::begin(alloc, handler, number, method, file),
    }
}

/// Begins the request of a head that was found.
fn begin_head<H: Handler, K: Clock, P: Pace<H>>(
    alloc: Global,
    seen: &[u8],
    spans: &[HeaderSpan],
    head: RequestSpans,
    site: &Site,
    handler: &mut H,
    number: u64,
    clock: &mut K,
    text: &mut ResponseText,
) -> Result<StepSlice<P::Task>, FrontKind>
    requires within { IsRequestWithin seen.now spans.now head }
    requires found { IsHeadFound head_limit seen.now spans.now head }
    requires room { length spans.now ≡ fields_limit }
    requires size { length seen.now ≤ head_limit }
    requires empty { text_of text.old ≡ [] }
    requires open { H.is_open handler.old number }
    ensures open { H.is_open handler.new number }
    ensures beside { (from : H) → H.beside from number handler.old → H.beside from number handler.new }
    ensures clock { (from : K) → Passes K.tells from clock.old → Passes K.tells from clock.new }
    ensures ok { IfOk result (λ x. (eof : Bool) → StepMade site.now (λ old. P.comes old number) (λ old. P.rests old number) K.tells handler.old clock.old seen.now
        eof x (text_of text.new) handler.new clock.new) }
    ensures err { IfErr result (λ e. IsLack e × (e ≡ FrontKind.NamesSpent → (h : RequestHead) → IsRequestAt seen.now spans.now head h
        → LacksNamesAt (λ old. H.lacks old number) site.now handler.old h handler.new)) }
    ensures few { P.steps handler.old number (2 * slice_steps) handler.new }
{
    let asked = asked_by(seen, spans, head);
    let wanted = wanted_of(alloc, seen, spans, head, site)?;
    match begin_wanted::<H, P>(alloc, wanted, asked.method, handler, number)? {
        Slice::Done(outcome) => {
            let step = send(alloc, seen, asked, outcome, handler, clock, text)?;
            Ok(StepSlice::Did(step))
        }
        Slice::Works(task) => Ok(StepSlice::Works(UnderWay { asked, task })),
    }
}

// A slice where the bytes are within the limit.
fn begin_within<H: Handler, K: Clock, P: Pace<H>>(
    alloc: Global,
    seen: &[u8],
    eof: bool,
    spans: &mut [HeaderSpan],
    site: &Site,
    handler: &mut H,
    number: u64,
    clock: &mut K,
    text: &mut ResponseText,
) -> Result<StepSlice<P::Task>, FrontKind>
    requires size { length seen.now ≤ head_limit }
    requires room { length spans.old ≡ fields_limit }
    requires open { H.is_open handler.old number }
    ensures open { H.is_open handler.new number }
    ensures beside { (from : H) → H.beside from number handler.old → H.beside from number handler.new }
    ensures clock { (from : K) → Passes K.tells from clock.old → Passes K.tells from clock.new }
    ensures ok { IfOk result (λ x. StepMade site.now (λ old. P.comes old number) (λ old. P.rests old number) K.tells handler.old clock.old seen.now eof x (text_of text.new) handler.new clock.new) }
    ensures err { IfErr result (LacksAnswer site.now (λ old. H.lacks old number) handler.old seen.now eof handler.new) }
    ensures few { P.steps handler.old number (2 * slice_steps) handler.new }
{
    text.clear(alloc);
    if seen.is_empty() && eof {
        return Ok(StepSlice::Did(ServeStep::Done));
    }
    if seen.is_empty() {
        return Ok(StepSlice::Did(ServeStep::More));
    }
    match look_at(seen, HEAD_LIMIT, eof, spans) {
        HeadLook::Head(head) => begin_head::<H, K, P>(
            alloc, seen, spans, head, site, handler, number, clock, text,
        ),
        HeadLook::More => Ok(StepSlice::Did(ServeStep::More)),
        HeadLook::Headless => {
            put_reply(alloc, &[], &[], &mut bad_reply(alloc), clock, text)?;
            Ok(StepSlice::Did(ServeStep::Refused))
        }
    }
}

/// Answers the request that the bytes at hand begin with, if they hold its head (RFC 9112, section 2.1), or leaves it under way. A head has at
/// most 8192 bytes, the empty lines before it among them, and 64 fields.
fn begin_step<H: Handler, K: Clock, P: Pace<H>>(
    alloc: Global,
    seen: &[u8],
    eof: bool,
    site: &Site,
    handler: &mut H,
    number: u64,
    clock: &mut K,
    text: &mut ResponseText,
) -> Result<StepSlice<P::Task>, FrontKind>
    requires { H.is_open handler.old number }
    ensures open { H.is_open handler.new number }
    ensures beside { (from : H) → H.beside from number handler.old → H.beside from number handler.new }
    ensures clock { (from : K) → Passes K.tells from clock.old → Passes K.tells from clock.new }
    ensures ok { IfOk result (λ x. StepMade site.now (λ old. P.comes old number) (λ old. P.rests old number) K.tells handler.old clock.old seen.now eof x (text_of text.new) handler.new clock.new) }
    ensures err { IfErr result (LacksAnswer site.now (λ old. H.lacks old number) handler.old seen.now eof handler.new) }
    ensures few { P.steps handler.old number (2 * slice_steps) handler.new }
{
    let mut spans = [EMPTY_HEADER_SPAN; FIELDS_LIMIT];
    begin_within::<H, K, P>(
        alloc,
        front(seen, HEAD_LIMIT),
        ends_within(eof, seen.len(), HEAD_LIMIT),
        &mut spans,
        site,
        handler,
        number,
        clock,
        text,
    )
}

/// Makes a slice more of a request that is under way, and answers it where it is handled.
fn go_on_step<H: Handler, K: Clock, P: Pace<H>>(
    alloc: Global,
    seen: &[u8],
    under_way: UnderWay<P::Task>,
    handler: &mut H,
    number: u64,
    clock: &mut K,
    text: &mut ResponseText,
) -> Result<StepSlice<P::Task>, FrontKind>
    requires { H.is_open handler.old number }
    ensures open { H.is_open handler.new number }
    ensures beside { (from : H) → H.beside from number handler.old → H.beside from number handler.new }
    ensures clock { (from : K) → Passes K.tells from clock.old → Passes K.tells from clock.new }
    ensures ok { IfOk result (λ x. (site : Site) (eof : Bool) (old : H) → IsUnderWay site (λ old. P.comes old number) (λ old. P.rests old number) seen.now under_way old handler.old
        → StepMade site (λ old. P.comes old number) (λ old. P.rests old number) K.tells old clock.old seen.now eof x (text_of text.new) handler.new clock.new) }
    ensures err { IfErr result (λ e. IsLack e × (e ≡ FrontKind.NamesSpent → P.lacks_rest handler.old number under_way.task e handler.new)) }
    ensures few { P.steps handler.old number slice_steps handler.new }
{
    text.clear(alloc);
    let asked = under_way.asked;
    match P::go_on(alloc, handler, number, Some(under_way.task))? {
        Slice::Done(outcome) => {
            let low = front(seen, HEAD_LIMIT);
            let step = send(alloc, low, asked, outcome, handler, clock, text)?;
            Ok(StepSlice::Did(step))
        }
        Slice::Works(task) => Ok(StepSlice::Works(UnderWay { asked, task })),
    }
}

/// A slice of a step: of the request that is in hand, or of the next one.
pub(crate) fn step_on<H: Handler, K: Clock, P: Pace<H>>(
    alloc: Global,
    seen: &[u8],
    eof: bool,
    hand: Option<UnderWay<P::Task>>,
    site: &Site,
    handler: &mut H,
    number: u64,
    clock: &mut K,
    text: &mut ResponseText,
) -> Result<StepSlice<P::Task>, FrontKind>
    requires { H.is_open handler.old number }
    ensures open { H.is_open handler.new number }
    ensures beside { (from : H) → H.beside from number handler.old → H.beside from number handler.new }
    ensures clock { (from : K) → Passes K.tells from clock.old → Passes K.tells from clock.new }
    ensures ok { IfOk result (λ x. StepsFrom site.now (λ old. P.comes old number) (λ old. P.rests old number) K.tells hand handler.old clock.old seen.now eof x
        (text_of text.new) handler.new clock.new) }
    ensures err { IfErr result (LacksSlice site.now (λ old. H.lacks old number) (λ old. P.lacks_rest old number) hand handler.old seen.now eof handler.new) }
    ensures few { P.steps handler.old number (most_steps hand) handler.new }
{
    match hand {
        Some(under_way) => go_on_step::<H, K, P>(
            alloc, seen, under_way, handler, number, clock, text,
        ),
        None => begin_step::<H, K, P>(alloc, seen, eof, site, handler, number, clock, text),
    }
}
