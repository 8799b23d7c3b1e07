//! A body, from a reader through a chain of filters to a writer: what the command `filter` plays.
#![tactic(auto)]

mod calls;
mod ending;
mod feeding;
mod filtering;

pub use byte_streams::{CountedSource, Sink, Source};
pub use ending::BodyEnd;
pub use filter_chain::{CheckedChain, Limits};
pub use filtering::{MOST_READ_BYTES, run_filter};
pub use http_message::Failure;
pub use module_commands::PlayFault;
