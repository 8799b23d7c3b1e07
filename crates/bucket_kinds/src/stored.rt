//! Buckets as a store holds them.

use apr_region::Span;
use run_model::{Content, Home, Kind};

/// `len` bytes, from the byte `start` on, of those that a span names in the region of the pool of this name.
#[derive(Clone, Copy)]
pub struct RegionBytes {
    pub pool: u64,
    pub span: Span,
    pub start: u64,
    pub len: u64,
}

/// What a stored bucket keeps.
#[derive(Drop)]
pub enum Kept {
    /// A content of its own.
    Own(Content),
    /// Bytes in the region of a pool.
    Placed(RegionBytes),
}

/// A bucket as a store holds it.
#[derive(Drop)]
pub struct Stored {
    pub kind: Kind,
    pub kept: Kept,
    pub home: Home,
}
