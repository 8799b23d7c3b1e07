//! What a whole head is refused with, and whether its client closes.

ghost use Rattle.std.specs.Prelude.{◌≡◌, map, take, length, All};
ghost use Rattle.http_message.specs.Prelude.{RequestHead, IsHeaderWithin, IsRequestAt, IsRequestWithin, header_bytes, span_bytes, method_refusal, target_refusal, or_else, head_refusal, head_closes};
ghost use Rattle.http_message.specs.Prelude.{status_closes, field_refusal, closes};

use crate::asks::{method_refusal, target_path};
use crate::fields::{closes, field_refusal};
use crate::status::StatusCode;
use httparse::spans::{HeaderSpan, RequestSpans};

fn target_refusal(target: &[u8]) -> Option<StatusCode>
    ensures { result ≡ target_refusal target.now }
{
    match target_path(target) {
        Some(_) => None,
        None => Some(StatusCode::BadRequest),
    }
}

fn line_refusal(method: &[u8], target: &[u8]) -> Option<StatusCode>
    ensures { result ≡ or_else (method_refusal method.now) (target_refusal target.now) }
{
    match method_refusal(method) {
        Some(status) => Some(status),
        None => target_refusal(target),
    }
}

/// The status that the head is refused with, whatever is served, if it is: by its fields, then by its
/// method (RFC 9110, section 9.1), then by its target (RFC 9112, section 3.2).
pub fn head_refusal(buf: &[u8], spans: &[HeaderSpan], head: RequestSpans) -> Option<StatusCode>
    requires { IsRequestWithin buf.now spans.now head }
    ensures { (h : RequestHead) → IsRequestAt buf.now spans.now head h → result ≡ head_refusal h }
{
    match field_refusal(head.version, buf, &spans[..head.headers]) {
        Some(status) => Some(status),
        None => line_refusal(head.method.of(buf), head.path.of(buf)),
    }
}

/// Whether the client of the head wants no further request on the connection (RFC 9112, section 9.6).
pub fn head_closes(buf: &[u8], spans: &[HeaderSpan], head: RequestSpans) -> bool
    requires { IsRequestWithin buf.now spans.now head }
    ensures { (h : RequestHead) → IsRequestAt buf.now spans.now head h → result ≡ head_closes h }
{
    closes(head.version, buf, &spans[..head.headers])
}

/// Whether no request is read after this status: what follows the head is unknown, or the server failed.
pub fn status_closes(status: StatusCode) -> bool
    ensures { result ≡ status_closes status }
{
    match status {
        StatusCode::BadRequest | StatusCode::ContentTooLarge | StatusCode::InternalServerError =>
            true,
        StatusCode::Success
        | StatusCode::NotFound
        | StatusCode::MethodNotAllowed
        | StatusCode::NotImplemented => { false }
    }
}
