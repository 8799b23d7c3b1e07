//! The pool tree: pools, each a child of a pool, with the payloads that a clear hands on.
#![tactic(auto)]

mod handed;
mod links;
mod payloads;
mod records;
mod refusal;
mod text;
mod tree;

pub use byte_text::{TextWriter, WriteFault};
pub use refusal::PoolError;
pub use run_model::{CleanupKind, ClearKind};
pub use text::PoolText;
pub use tree::{PoolId, PoolTree, Room};
