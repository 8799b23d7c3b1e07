//! Rings of stored buckets, and what stands in them as contracts of brigades see it.
#![tactic(auto)]

mod bucket_store;
mod dependents;
mod indexed;
mod laws;
mod morph;
mod noting;
mod parting;
mod pruning;
mod refusal;
mod regions;
mod view;

pub use bucket_kinds::{ReadFault, RegionBytes, Stored};
pub use bucket_ring::{BucketId, RingId, RingRefusal, Rings};
pub use bucket_store::{BucketStore, HeapCopy};
pub use dependents::Dependents;
pub use indexed::Indexed;
pub use laws::{lists_are_the_models, points_are_the_models, worked_changes};
pub use morph::Morph;
pub use parting::{Cut, Point};
pub use refusal::{ReadRefusal, SplitRefusal};
pub use regions::Regions;
pub use run_model::{Bucket, Content, Home, Kind};
pub use view::{ContentView, View};
