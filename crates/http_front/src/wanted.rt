//! What a head asks for.

ghost use Rattle.std.specs.Prelude.{◌≡◌, List, ℕ, IfOk};
ghost use Rattle.httparse.specs.Grammar.{RequestHead};
ghost use Rattle.httparse.specs.Spans.{IsRequestAt, IsRequestWithin};
ghost use Rattle.http_front.specs.UnderWays.{Wants, WantsPath};

use http_message::{Site, StatusCode, decoded, head_refusal, target_path};
use httparse::spans::{HeaderSpan, RequestSpans};
use std::alloc::{AllocError, Global};

/// What a head asks for.
pub enum SiteTarget<'a> {
    /// It gets this status, without content.
    Status(StatusCode),
    /// This file of the site.
    File(&'a [u8]),
}

fn path_wanted<'a>(
    alloc: Global,
    target: &[u8],
    site: &'a Site,
) -> Result<SiteTarget<'a>, AllocError>
    ensures { IfOk result (λ w. (h : RequestHead) → target.now ≡ h.target → WantsPath site.now h w) }
{
    let Some(sent) = target_path(target) else {
        return Ok(SiteTarget::Status(StatusCode::NotFound));
    };
    let path = decoded(alloc, sent)?;
    match site.route(path.as_slice()) {
        Some(file) => Ok(SiteTarget::File(file)),
        None => Ok(SiteTarget::Status(StatusCode::NotFound)),
    }
}

/// What a head asks for: its refusal (RFC 9110, section 15), or 404 where there is no file at its path, or the file.
pub(crate) fn wanted_of<'a>(
    alloc: Global,
    seen: &[u8],
    spans: &[HeaderSpan],
    head: RequestSpans,
    site: &'a Site,
) -> Result<SiteTarget<'a>, AllocError>
    requires { IsRequestWithin seen.now spans.now head }
    ensures { IfOk result (λ w. (h : RequestHead) → IsRequestAt seen.now spans.now head h → Wants site.now h w) }
{
    match head_refusal(seen, spans, head) {
        Some(status) => Ok(SiteTarget::Status(status)),
        None => path_wanted(alloc, head.path.of(seen), site),
    }
}
