//! Brigades on pools, over a store of rings (apr_buckets.h).
#![tactic(auto)]

mod aside;
mod brigades;
mod buckets;
mod clearing;
mod cutting;
mod due;
mod files;
mod morphs;
mod reached;
mod reading;
mod references;
mod rooms;
mod saving;
mod store;
mod visits;
mod walking;

pub use bucket_kinds::{FileNo, Files, Stored};
pub use bucket_ring::{BucketId, PlainRings, RawRings, RingRefusal, Rings};
pub use bucket_store::{
    ContentView, Cut, Point, ReadRefusal, SplitRefusal, View, lists_are_the_models,
    points_are_the_models, worked_changes,
};
pub use morphs::Morphs;
pub use pool_tree::{ClearKind, PoolId, PoolTree};
pub use run_model::{Bucket, Content, Home, Kind, Payload, Seq};
pub use store::{BrigadeId, Brigades};
pub use visits::Visitor;
