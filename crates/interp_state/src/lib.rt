//! Instances and calls of modules over a store of brigades, as `seen` shows them, and what is asked of them: where an instruction leads, and how
//! many names it takes. What they stand at is read off their variables and cursors.
#![tactic(auto)]

pub mod across;
pub mod asks;
pub mod bytes;
pub mod context;
pub mod cursors;
pub mod exits;
pub mod led_to;
pub mod machine;
pub mod pool_names;
pub mod values;

pub use brigade_ops::{
    BrigadeId, Brigades, BucketId, PlainRings, PoolId, PoolTree, RawRings, Rings,
};
pub use context::Context;
pub use machine::{Call, CursorValue, Instance, Slot};
pub use run_model::{Bucket, Mark, Payload, PoolVar, Seq};
