//! Buckets, brigades, and what variables and cursors hold.

use module_code::Seq;

/// The type of a bucket (apr_buckets.h, 'bucket types').
#[derive(Clone, Copy)]
pub enum Kind {
    /// Bytes on the heap.
    Heap,
    /// Bytes that last as long as the call that made the bucket.
    Transient,
    /// Bytes that last for ever.
    Immortal,
    /// Bytes in the pool of this name.
    Pool(u64),
    /// A range of an open file.
    File,
    /// Metadata: flush what came so far.
    Flush,
    /// Metadata: the end of the stream.
    Eos,
}

/// What a bucket holds.
#[derive(Drop)]
pub enum Content {
    /// Bytes in memory.
    Bytes(Seq<u8>),
    /// `len` bytes, from the byte `start` on, of the open file of this number.
    Range { file: u64, start: u64, len: u64 },
    /// Nothing, as in metadata.
    Nothing,
}

/// What a bucket's content lives as long as.
#[derive(Clone, Copy)]
pub enum Home {
    /// It depends on nothing.
    Free,
    /// The call of this name.
    Call(u64),
    /// The pool of this name.
    Pool(u64),
    /// Its home is dead: the call returned, or the pool was cleared or destroyed.
    Ended,
}

/// A bucket without its name.
#[derive(Drop)]
pub struct Bucket {
    pub kind: Kind,
    pub content: Content,
    pub home: Home,
}

/// A bucket with the name that no other bucket ever has.
#[derive(Drop)]
pub struct NamedBucket {
    pub name: u64,
    pub bucket: Bucket,
}

/// Whether a brigade may be used.
#[derive(Clone, Copy)]
pub enum Mark {
    /// It may be used.
    Usable,
    /// It was passed, and may only be cleaned.
    Passed,
}

/// A brigade: its name, the pool that it is made on (none for a brought one), its mark and its buckets.
#[derive(Drop)]
pub struct Brigade {
    pub name: u64,
    pub on: Option<u64>,
    pub mark: Mark,
    pub items: Seq<NamedBucket>,
}

/// A brigade variable of an instance.
#[derive(Drop)]
pub enum BrigadeVar {
    /// Nothing was made in it.
    Null,
    /// What was made in it went with its pool.
    Gone,
    /// The brigade that is in it.
    Live(Brigade),
}

/// A pool variable of an instance.
#[derive(Clone, Copy)]
pub enum PoolVar {
    /// Nothing was made in it.
    Null,
    /// The name of the pool that was made in it, which may be dead.
    Made(u64),
}

/// A cursor of a call.
#[derive(Clone, Copy)]
pub enum Cursor {
    /// It was not set.
    Unset,
    /// The bucket of this name.
    At(u64),
    /// The end of the brigade of this name.
    End(u64),
}
