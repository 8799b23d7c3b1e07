//! What is done with the text of one module: it is assembled, certified, checked, its certificate is upgraded, or it is loaded for a chain. And the readers and writers around it.
#![tactic(auto)]

mod answer;
mod assembling;
mod beginning;
mod cert_answer;
mod certifying;
mod checking;
mod ended;
mod fault;
mod loading;
mod named_file;
mod recorded;
mod streams;
mod upgrading;

pub use answer::CommandOutput;
pub use assembling::run_assemble;
pub use beginning::{FRAME, run_new};
pub use byte_streams::{CountedSource, Sink, Source};
pub use cert_answer::CertTask;
pub use certifying::run_certify;
pub use checking::run_check;
pub use ended::Ended;
pub use fault::PlayFault;
pub use loading::{Loaded, load_part};
pub use named_file::NamedFile;
pub use recorded::{Recorded, RecordedWriter};
pub use script_text::ScriptModule;
pub use streams::{read_all, write_text};
pub use upgrading::run_upgrade;
