//! Rows of a bucket that is read from files in memory.

use crate::disk::{range, show_bucket};
use anyhow::Result;
use bucket_kinds::{Bucket, Content, Files, Home, Kind, MemFiles, Seq};

/// How many bytes a file has, and how many a bucket has of it, from the first on.
static SIZES: &[(usize, u64)] = &[(8_001, 8_001), (8_000, 8_000), (7_999, 8_000)];

/// Reads a bucket of a file of so many bytes.
fn show_size(rt: &HostRuntime, held: usize, len: u64) -> Result<()> {
    let mut files = MemFiles::new(rt.alloc());
    files.add(b"x", vec![in rt.alloc(); b'x'; held]?)?;
    let (file, _) = files.open_file(b"x")?;
    show_bucket(rt, &mut files, range(file, 0, len))
}

/// Reads a bucket that keeps its bytes.
fn show_heap(rt: &HostRuntime) -> Result<()> {
    let mut bytes = Seq::new(rt.alloc());
    bytes.extend(b"ab")?;
    let heap = Bucket {
        kind: Kind::Heap,
        content: Content::Bytes(bytes),
        home: Home::Free,
    };
    show_bucket(rt, &mut MemFiles::new(rt.alloc()), heap)
}

/// Tells what is read of buckets of these sizes.
pub(crate) fn read_bucket_sizes(rt: &HostRuntime) -> Result<()> {
    println!(rt;
        "read_bucket_sizes: 8001 bytes of as many, 8000 of as many, 8000 of 7999, and heap"
    )?;
    for (held, len) in SIZES {
        show_size(rt, *held, *len)?;
    }
    show_heap(rt)
}
