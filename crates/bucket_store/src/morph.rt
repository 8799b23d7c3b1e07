//! What a clear of a pool makes of one bucket.

use bucket_ring::BucketId;
use run_model::{Home, Kind};

/// The kind and the home that a bucket gets.
#[derive(Clone, Copy)]
pub struct Morph {
    pub id: BucketId,
    pub kind: Kind,
    pub home: Home,
}
