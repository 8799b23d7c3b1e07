//! Filters from files, in the language for authors or as modules: the command `compile`, and the chains of `serve` and of `filter`.
#![tactic(auto)]

mod beginning;
mod chain_files;
mod compile_command;
mod compiling;
mod notes;
mod settings;
mod start_error;

pub use author_compile::Compiled;
pub use author_text::place::Place;
pub use beginning::{FILTER_FRAME, run_new_filter};
pub use byte_streams::{CountedSource, Sink, Source};
pub use chain_files::{FileChain, is_filter_name, read_chain};
pub use compile_command::{compile_output, run_compile};
pub use compiling::{FilterFault, FilterRead, compile_text, read_filter};
pub use life_check::CheckedChain;
pub use module_commands::{CommandOutput, Ended, PlayFault};
pub use settings::{ParamSetting, no_setting, setting_of, unused_setting};
pub use start_error::{StartCause, StartError, cannot_read, stop_for, stop_with, write_stop};
