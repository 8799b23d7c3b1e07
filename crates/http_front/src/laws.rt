//! Laws of responses, and worked examples. Each function does nothing: what its contract says holds of the definitions alone.

ghost use Rattle.http_front.specs.FeedRows.{CallRows, FileRows};
ghost use Rattle.http_front.specs.Rows.{Http10, HttpBadHead, HttpConnectionOption, HttpEmptyFile, HttpFailing, HttpGet, HttpGetAbsolute, HttpHead};
ghost use Rattle.http_front.specs.Rows.{HttpLargeFile, HttpManyFields, HttpMethods, HttpMissing, HttpRequestBody, RepliesAreThese};
ghost use Rattle.http_front.specs.OneStream.{RequestsAreDeterministic, RequestsKeepFilesKnown};
ghost use Rattle.http_front.specs.SameResponses.{SameDatesSameBytes};

/// Requests ask for what was worked out by hand, and are answered with the texts that were: heads as values, what refuses them, the path that
/// they ask for, the whole response at a moment, what is brought of a file, and what a request comes to by how its calls ended.
pub fn worked_rows()
    ensures replies { RepliesAreThese }
    ensures get { HttpGet }
    ensures absolute { HttpGetAbsolute }
    ensures head { HttpHead }
    ensures bad_head { HttpBadHead }
    ensures many_fields { HttpManyFields }
    ensures old_version { Http10 }
    ensures methods { HttpMethods }
    ensures missing { HttpMissing }
    ensures failing { HttpFailing }
    ensures empty_file { HttpEmptyFile }
    ensures large_file { HttpLargeFile }
    ensures content { HttpRequestBody }
    ensures connection_option { HttpConnectionOption }
    ensures brigades { FileRows }
    ensures calls { CallRows }
{}

/// A request for a file, on a host whose files are all known, comes to one outcome and leaves one host, unless memory is refused; the outcome is a
/// 500 that says so then. Its files are all known then, too.
pub fn requests_are_deterministic()
    ensures deterministic { RequestsAreDeterministic }
    ensures known { RequestsKeepFilesKnown }
{}

/// Two runs that agree on their responses, and sent them with the same Date lines, sent the same bytes, where no response of either says that memory
/// was refused.
pub fn same_dates_same_bytes()
    ensures bytes { SameDatesSameBytes }
{}
