//! The time of a response, and its place in a log.

ghost use Rattle.std.specs.Prelude.{ℕ};
ghost use Rattle.http_message.specs.Clocks.{Said, Moment, Response};

use crate::failure::Failure;
use crate::status::StatusCode;

/// A request and its response, as a log tells them.
#[derive(Clone, Copy)]
pub struct Exchange<'a> {
    /// The method of the request, as it was sent. Empty where the bytes began with no head.
    pub method: &'a [u8],
    /// The target of the request, as it was sent, with its query. Empty where the bytes began with no head.
    pub target: &'a [u8],
    /// The status of the response.
    pub status: StatusCode,
    /// How many bytes of content the response has. Where it has none, as to a HEAD, it is 0.
    pub size: usize,
    /// Why the status is 500.
    pub failure: Option<Failure>,
}

/// A clock, in seconds since the beginning of 1970. It is told of each response, so that it can keep a log.
pub trait Clock {
    ghost use Rattle.http_message.specs.Clocks.{Said};

    // In the first state this passes, and the clock is then in the second.
    ghost tells: { Self → Said → Self → Type 0 };

    /// The moment that it is.
    fn now(&mut self) -> u64
        ensures { tells self.old (Moment result) self.new };

    /// Takes note of a response. It is whole, and is written next: `now` was asked for it before.
    fn answered(&mut self, exchange: &Exchange<'_>)
        ensures { tells self.old (Response exchange.now) self.new };
}
