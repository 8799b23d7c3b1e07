//! What a request line asks for.

ghost use Rattle.std.specs.Prelude.{◌≡◌, ◌≤◌, length, IsTrue, None, Some, MatchOption};
ghost use Rattle.http_message.specs.Asking.{is_served, is_known, method_refusal, before, from_first, or_root, is_origin, is_absolute, form_path, target_path};

use crate::reply::{Method, is_method};
use crate::status::StatusCode;
use http1::text::eq_ignore_case;

fn is_served(method: Method) -> bool
    ensures { result ≡ is_served method }
{
    match method {
        Method::Get | Method::Head => true,
        Method::Other => false,
    }
}

fn is_known(method: &[u8]) -> bool
    ensures { result ≡ is_known method.now }
{
    is_method(method, &http::Method::POST)
        || is_method(method, &http::Method::PUT)
        || is_method(method, &http::Method::DELETE)
        || is_method(method, &http::Method::CONNECT)
        || is_method(method, &http::Method::OPTIONS)
        || is_method(method, &http::Method::TRACE)
        || is_method(method, &http::Method::PATCH)
}

/// The status that refuses the method, if one does: 405 for a known one, else 501 (RFC 9110, section 9.1).
#[tactic(auto, unfolding(crate::specs::Asking::method_refusal))]
pub(crate) fn method_refusal(method: &[u8]) -> Option<StatusCode>
    ensures { result ≡ method_refusal method.now }
{
    if is_served(Method::of(method)) {
        return None;
    }
    if is_known(method) {
        return Some(StatusCode::MethodNotAllowed);
    }
    Some(StatusCode::NotImplemented)
}

fn before(bytes: &[u8], wanted: u8) -> &[u8]
    ensures { result.now ≡ before wanted bytes.now }
{
    let mut at = 0;
    while at < bytes.len() && bytes[at] != wanted {
        at += 1;
    }
    &bytes[..at]
}

fn from_first(mut bytes: &[u8], wanted: u8) -> &[u8]
    ensures { result.now ≡ from_first wanted bytes.now }
{
    while let [first, rest @ ..] = bytes
        && *first != wanted
    {
        bytes = rest;
    }
    bytes
}

fn or_root(path: &[u8]) -> &[u8]
    ensures { result.now ≡ or_root path.now }
{
    if path.is_empty() {
        return b"/";
    }
    path
}

fn is_absolute(target: &[u8]) -> bool
    ensures same { result ≡ is_absolute target.now }
    ensures long { IsTrue result → 7 ≤ length target.now }
{
    target.len() >= 7 && eq_ignore_case(&target[..7], b"http://")
}

fn form_path(target: &[u8]) -> Option<&[u8]>
    ensures { MatchOption result (form_path target.now ≡ None) (λ path. form_path target.now ≡ Some path.now) }
{
    if let [b'/', ..] = target {
        return Some(target);
    }
    if is_absolute(target) {
        return Some(or_root(from_first(&target[7..], b'/')));
    }
    None
}

/// The path of a target, as it was sent and without its query: an origin form or an absolute form
/// (RFC 9112, sections 3.2.1 and 3.2.2). `None` for another form.
#[tactic(auto, unfolding(crate::specs::Asking::target_path))]
pub fn target_path(target: &[u8]) -> Option<&[u8]>
    ensures { MatchOption result (target_path target.now ≡ None) (λ path. target_path target.now ≡ Some path.now) }
{
    form_path(before(target, b'?'))
}
