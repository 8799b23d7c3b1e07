//! The host: chains of filters on many connections, one instruction at a time.
#![tactic(auto)]

mod chain;
mod closing;
mod conns;
mod filing;
mod host;
pub mod laws;
mod limits;
mod opening;
mod pools;
mod running;
mod serving;
mod spare;
mod stepping;
mod telling;

pub use bucket_kinds::{AddRefusal, FileNo, Files, MemFiles, Stored};
pub use bucket_ring::{RawRings, Rings};
pub use byte_text::{BlockBytes, TextWriter, WriteFault};
pub use host::Host;
pub use interp_exec::labels_run::LabelsRun;
pub use life_check::CheckedChain;
pub use limits::Limits;
pub use pool_tree::{PoolError, PoolId};
pub use run_model::{Cause, Module, Payload, Piece, Refusal, Seq, Stepped};
