//! Where cursors stand (apr_buckets.h: at a bucket, or at the sentinel of a brigade, which is the end of its ring).

use brigade_ops::BucketId;

/// Where a cursor stands.
#[derive(Clone, Copy)]
pub enum CursorPlace {
    /// It is unset, or what it stood at is no longer there.
    Nowhere,
    /// At a loose bucket.
    Loose(BucketId),
    /// At a bucket of the brigade in a variable.
    Within(u8, BucketId),
    /// At the end of the brigade in a variable.
    End(u8),
}
