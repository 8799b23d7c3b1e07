//! The command `serve`: a site over HTTP/1.1 on a port, through a chain of filters that is checked first.
#![tactic(auto)]

mod client;
mod descriptors;
mod event_loop;
mod head_reader;
mod listening;
mod request_log;
mod serve_command;
mod site_reading;
mod socket;
mod system_clock;
mod unclosed;

pub use filter_files::ParamSetting;
pub use http_front::Failure;
pub use request_log::failure_hint;
pub use serve_command::{ServeOptions, run_serve};
