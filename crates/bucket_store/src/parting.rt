//! Where a point of a brigade lies, and what a partition answers.

use bucket_ring::BucketId;

/// What a partition answers (`apr_brigade_partition`).
#[derive(Clone, Copy)]
pub enum Cut {
    /// The place before this bucket.
    Found(BucketId),
    /// The end of the brigade.
    AtEnd,
    /// The brigade is shorter (`APR_INCOMPLETE`).
    Incomplete,
}

/// Where a point of a brigade lies.
#[derive(Clone, Copy)]
pub enum Point {
    /// Past the end.
    Short,
    /// At a place.
    At(Option<BucketId>),
    /// Inside a bucket, behind so many of its bytes.
    Inside(BucketId, u64),
}
