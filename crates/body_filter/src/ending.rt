//! How the filtering of a body ends.

ghost use Rattle.std.specs.Prelude.{◌≡◌};
ghost use Rattle.body_filter.specs.Prelude.{body_end};

use http_message::Failure;

/// How the filtering of a body ends.
#[derive(Clone, Copy, Debug)]
pub enum BodyEnd {
    /// All of the body was brought, and the EOS behind it, and each call succeeded.
    Whole,
    /// A call did not succeed, for this reason: what follows was not brought.
    Cut(Failure),
}

/// How it ends, by its last call.
pub(crate) fn body_end(how: Option<Failure>) -> BodyEnd
    ensures { result ≡ body_end how }
{
    match how {
        None => BodyEnd::Whole,
        Some(why) => BodyEnd::Cut(why),
    }
}
