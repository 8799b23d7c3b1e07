//! Connections that could not be closed for lack of memory.

ghost use Rattle.std.specs.Prelude.{◌≡◌, IsTrue};
ghost use Rattle.http_front.specs.Driven.{IsAlive};

use filter_chain::{Files, Host, Refusal, Rings, Stored};

/// The connections of the host that are still to be closed: they are among these numbers.
#[derive(Clone, Copy)]
pub struct UnclosedConns {
    first: u64,
    end: u64,
}

impl UnclosedConns {
    /// None.
    pub fn new() -> UnclosedConns {
        UnclosedConns { first: 0, end: 0 }
    }

    /// One more, of a number that is greater than those before.
    pub fn add(&mut self, number: u64) {
        if self.first == self.end {
            self.first = number;
        }
        self.end = number.saturating_add(1);
    }

    /// Closes them, up to the first for which there is no memory yet.
    pub fn close<F: Files + Drop, B: Rings<Stored> + Drop>(&mut self, host: &mut Host<F, B>)
        requires { IsAlive F.device host.old }
        ensures { IsAlive F.device host.new }
    {
        for number in self.first..self.end {
            if let Err(Refusal::NoMemory) = host.close(number) {
                return;
            }
            self.first = number + 1;
        }
    }
}
