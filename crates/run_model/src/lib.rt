//! The definitions that contracts speak of: pools, buckets, brigades, instances, calls, faults, steps and
//! the events of a connection, with the plain types that stand in them.
#![tactic(auto)]

mod bucket;
mod effect;
mod event;
mod fault;
mod payload;
mod want;

pub use bucket::{
    Brigade, BrigadeVar, Bucket, Content, Cursor, Home, Kind, Mark, NamedBucket, PoolVar,
};
pub use effect::{
    Branch, CleanupKind, ClearKind, Condition, Effect, MadeFrom, NewNumber, Side, branch_of,
    effect_of,
};
pub use event::{Cause, Event, Exit, Piece, Refusal, StepRefusal, Stepped};
pub use fault::FaultKind;
pub use module_code::{Instr, KindTest, Module, PoolRef, Seq, Status, Value, VarRef};
pub use payload::Payload;
pub use want::{Need, Want, Wanted, wants};
