//! The head that the unread bytes begin with.

ghost use Rattle.std.specs.Prelude.{◌≡◌, ◌≤◌, length};
ghost use Rattle.http_message.specs.Looking.{Looks};

use httparse::Status;
use httparse::spans::{HeaderSpan, RequestSpans, parse_request};

/// What a look at the bytes at hand finds.
#[derive(Clone, Copy, Debug, PartialEq, Eq)]
pub enum HeadLook {
    /// A whole head (RFC 9112, section 2.1), and where its parts are.
    Head(RequestSpans),
    /// The bytes are the front of a head, perhaps.
    More,
    /// The bytes begin with no head within the limits, whatever comes.
    Headless,
}

/// Looks for a head of at most `limit` bytes at the front of `seen`, with as many fields as there are
/// spans. `eof` says that no bytes follow.
pub fn look_at(seen: &[u8], limit: usize, eof: bool, spans: &mut [HeaderSpan]) -> HeadLook
    requires { length seen.now ≤ limit }
    ensures looks { Looks limit seen.now eof spans.new result }
    ensures room { length spans.new ≡ length spans.old }
{
    match parse_request(seen, spans) {
        Ok(Status::Complete(head)) => HeadLook::Head(head),
        Ok(Status::Partial) if eof => HeadLook::Headless,
        Ok(Status::Partial) if seen.len() == limit => HeadLook::Headless,
        Ok(Status::Partial) => HeadLook::More,
        Err(_) => HeadLook::Headless,
    }
}
