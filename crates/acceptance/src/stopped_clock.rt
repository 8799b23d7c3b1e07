//! A clock that stands still.

use http_front::{Clock, Exchange};

/// A clock that always tells the same moment, in seconds since the beginning of 1970.
#[derive(Drop)]
pub(crate) struct StoppedClock(pub(crate) u64);

impl Clock for StoppedClock {
    ghost tells = { λ _ _ _. Unit {0} };

    fn now(&mut self) -> u64 {
        self.0
    }

    fn answered(&mut self, _exchange: &Exchange<'_>) {}
}
