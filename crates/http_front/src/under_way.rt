//! Requests that are under way: what was found of their heads, and what works on them.

ghost use Rattle.std.specs.Prelude.{◌≡◌, List, ℕ, length};
ghost use Rattle.http_front.specs.Prelude.{RequestHead, IsRequestAt, IsRequestWithin, IsWithin, span_bytes, IsReplyTo, IsAskedBy};

use crate::answering::closes_with;
use crate::handler::RequestOutcome;
use crate::steps::ServeStep;
use http_message::{Method, Reply, Version, head_closes};
use httparse::spans::{HeaderSpan, RequestSpans, Span};

/// What was found of a head, for its response.
#[derive(Clone, Copy, Debug, PartialEq, Eq)]
pub(crate) struct Asked {
    /// Where its parts are.
    pub head: RequestSpans,
    /// Its method.
    pub method: Method,
    /// Whether its client wants to close.
    pub closes: bool,
}

/// A request that is under way.
#[derive(Drop)]
pub(crate) struct UnderWay<T> {
    /// Its head, with which the bytes at hand begin.
    pub asked: Asked,
    /// What works on it.
    pub task: T,
}

/// What a slice of a step comes to.
#[derive(Drop)]
pub(crate) enum StepSlice<T> {
    /// The step is made.
    Did(ServeStep),
    /// A request is under way.
    Works(UnderWay<T>),
}

/// What was found of a head.
pub(crate) fn asked_by(seen: &[u8], spans: &[HeaderSpan], head: RequestSpans) -> Asked
    requires { IsRequestWithin seen.now spans.now head }
    ensures head { result.head ≡ head }
    ensures by { (h : RequestHead) → IsRequestAt seen.now spans.now head h → IsAskedBy seen.now result h }
{
    Asked {
        head,
        method: Method::of(head.method.of(seen)),
        closes: head_closes(seen, spans, head),
    }
}

/// The bytes that a span covers; none, where it lies outside.
pub(crate) fn span_in(span: Span, seen: &[u8]) -> &[u8]
    ensures { IsWithin (length seen.now) span → result.now ≡ span_bytes seen.now span }
{
    if span.start > span.end || span.end > seen.len() {
        return &[];
    }
    span.of(seen)
}

/// The reply to a head, with this outcome.
pub(crate) fn reply_of(asked: Asked, outcome: RequestOutcome) -> Reply
    ensures { (seen : List ℕ) (h : RequestHead) → IsAskedBy seen asked h → IsReplyTo h outcome result }
{
    Reply {
        status: outcome.status,
        version: Version::of(asked.head.version),
        method: asked.method,
        closes: closes_with(asked.closes, outcome.status),
        body: outcome.body,
        failure: outcome.failure,
    }
}
