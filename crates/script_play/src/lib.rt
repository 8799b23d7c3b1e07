//! The playing of scripts: what a reader gives is played on a host line by line, and answered as it is read.
#![tactic(auto)]

mod commands;
mod due;
mod labels;
mod player;
mod playing;
mod session;

pub use byte_streams::{CountedSource, Sink, Source};
pub use commands::serve;
pub use due::due_command;
pub use filter_chain::{Host, MemFiles, Rings, Stored};
pub use module_commands::{Ended, PlayFault};
pub use playing::run_play;
pub use script_text::{Command, CommandReply};
