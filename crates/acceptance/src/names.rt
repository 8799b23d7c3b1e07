//! Rows of names that run out, of rings and of pools: `u64::MAX` is never given out.

use crate::missing::Missing;
use crate::rings::{Put, RingPlace, put};
use anyhow::Result;
use bucket_ring::Rings;
use pool_tree::PoolTree;
use std::io;

/// Tells the name of a bucket that was put in, or why there is none.
fn show_put(rt: &HostRuntime, answer: Put<u8>) -> io::Result<()> {
    match answer {
        Ok(id) => println!(rt; "bucket {}", id.birth),
        Err((why, letter)) => println!(rt; "{why}, and {} comes back", letter as char),
    }
}

/// Makes a ring and a bucket of the last two names, and tries one bucket more.
fn spend_in_rings<R: Rings<u8> + Drop>(rt: &HostRuntime) -> Result<()> {
    let mut rings = R::new(rt.alloc(), u64::MAX - 2);
    let ring = rings.new_ring()?;
    println!(rt; "ring {ring}")?;
    for letter in [b'x', b'y'] {
        show_put(rt, put(&mut rings, RingPlace::Tail(ring), letter)?)?;
    }
    Ok(())
}

/// Makes a root of the last name, and tries a pool under it.
fn spend_in_pools(rt: &HostRuntime) -> Result<()> {
    let mut tree = PoolTree::<char>::new(rt.alloc(), u64::MAX - 1)?;
    let root = tree.root();
    println!(rt; "pool {root}")?;
    if !tree.is_live(root) {
        return Err(Missing.into());
    }
    match tree.create(root) {
        Ok(pool) => println!(rt; "pool {pool}")?,
        Err(why) => println!(rt; "{why}")?,
    }
    Ok(())
}

/// Tells the last names that rings and pools get, and what comes after them.
pub(crate) fn names_spent_rings_and_pools<R: Rings<u8> + Drop>(rt: &HostRuntime) -> Result<()> {
    println!(rt;
        "names_spent_rings_and_pools: from 2^64 - 3 on in rings, and from 2^64 - 2 on in pools"
    )?;
    spend_in_rings::<R>(rt)?;
    spend_in_pools(rt)
}
