//! What a bucket of a brigade takes in its ring, computed from the types.

use anyhow::Result;
use bucket_kinds::{Content, Kept};
use filter_chain::Stored;
use raw_nodes::Node;
use std::mem::size_of;

/// The bytes of a node with its bucket, and of what the bucket keeps.
const NODE: usize = size_of::<Node<Stored>>();

const KEPT: usize = size_of::<Kept>();

const _: () = prove!(size_of::<Node<Stored>>() <= size_of::<Content>() + 96);

/// Tells the memory of one bucket.
pub(crate) fn node_sizes(rt: &HostRuntime) -> Result<()> {
    println!(rt; "the memory of a bucket in a ring")?;
    println!(rt; "{NODE} bytes, of which what it keeps takes {KEPT}")?;
    Ok(())
}
