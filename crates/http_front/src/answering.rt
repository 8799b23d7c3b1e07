//! What a head is answered without a file.

ghost use Rattle.std.specs.Prelude.{◌≡◌, ◌||◌};
ghost use Rattle.http_message.specs.Asking.{status_closes};
ghost use Rattle.http_front.specs.Outcomes.{IsStatusOnly, IsBadReply};

use crate::handler::RequestOutcome;
use filter_chain::BlockBytes;
use http_message::{Method, Reply, StatusCode, Version, status_closes};
use std::alloc::Global;

pub(crate) fn without_body(alloc: Global, status: StatusCode) -> RequestOutcome
    ensures { IsStatusOnly status result }
{
    RequestOutcome {
        status,
        body: BlockBytes::new(alloc),
        failure: None,
    }
}

pub(crate) fn closes_with(closes: bool, status: StatusCode) -> bool
    ensures { result ≡ (closes || status_closes status) }
{
    closes || status_closes(status)
}

/// The reply where the bytes at hand begin with no head (RFC 9112, section 2.2).
pub(crate) fn bad_reply(alloc: Global) -> Reply
    ensures { IsBadReply result }
{
    Reply {
        status: StatusCode::BadRequest,
        version: Version::Http11,
        method: Method::Other,
        closes: true,
        body: BlockBytes::new(alloc),
        failure: None,
    }
}
