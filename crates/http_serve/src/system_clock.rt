//! The clock of the system.

use crate::request_log::RequestLog;
use http_front::{Clock, Exchange};
use std::rt;
use std::time::SystemTime;

/// The clock of the system. A clock that cannot be asked, or that is set before 1970, answers the beginning of 1970.
#[derive(Drop)]
pub struct SystemClock<'a, R: rt::Clock + Eprint + AllocGlobal> {
    pub runtime: &'a R,
    /// Where each request is logged, if it is.
    pub log: Option<&'a RequestLog<'a, R>>,
}

impl<R: rt::Clock + Eprint + AllocGlobal> Clock for SystemClock<'_, R> {
    // What a system's clock answers is not known.
    ghost tells = { λ _ _ _. Unit {0} };

    fn now(&mut self) -> u64 {
        let Ok(now) = SystemTime::now(self.runtime) else {
            return 0;
        };
        match now.duration_since(SystemTime::UNIX_EPOCH) {
            Ok(since) => since.as_secs(),
            Err(_) => 0,
        }
    }

    fn answered(&mut self, exchange: &Exchange<'_>) {
        if let Some(log) = self.log {
            log.log(exchange);
        }
    }
}
