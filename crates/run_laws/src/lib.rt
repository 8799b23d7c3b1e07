//! Laws of runs: where no memory is refused and files give what they hold, an event has one answer, and leaves one host.
#![tactic(auto)]

pub mod laws;
