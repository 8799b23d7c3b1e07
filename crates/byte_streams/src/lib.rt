//! Sources and sinks of bytes that say whether they failed.
#![tactic(auto)]

mod counted;
mod parts;
mod sink;
mod socket_sink;
mod source;
mod std_streams;

pub use counted::{CountedFault, CountedSource, READ_BYTES, READS};
pub use parts::Parts;
pub use sink::{Sink, SinkFault, WriteAnswer};
pub use socket_sink::{SocketSink, WritesParts, io_slices};
pub use source::{ReadAnswer, ReadFailed, Source};
pub use std_streams::{StdSink, StdSource};
