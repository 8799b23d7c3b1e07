//! Rings of buckets, as in `apr_buckets.h`: many lists of named payloads.
#![tactic(auto)]

mod circles;
mod laws;
mod linked_rings;
mod links;
mod names;
mod rings;
mod slots;

pub use laws::{names_run_out, worked_moves};
pub use linked_rings::{LinkedRings, PlainRings, RawRings};
pub use names::{BucketId, RingId, RingRefusal};
pub use raw_nodes::{Node, SlotBucket};
pub use rings::Rings;
pub use slots::Slots;
