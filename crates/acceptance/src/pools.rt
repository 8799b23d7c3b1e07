//! Rows of a tree of pools: what a destroy hands on.

use crate::missing::Missing;
use anyhow::Result;
use pool_tree::{PoolId, PoolTree};

/// Makes a pool under another, with a payload.
fn create(tree: &mut PoolTree<char>, parent: PoolId, payload: char) -> Result<PoolId> {
    if !tree.is_live(parent) {
        return Err(Missing.into());
    }
    let pool = tree.create(parent)?;
    if !tree.is_live(pool) {
        return Err(Missing.into());
    }
    match tree.register(pool, payload) {
        Ok(()) => Ok(pool),
        Err((why, _payload)) => Err(why.into()),
    }
}

/// Destroys a pool, and tells what it hands on, in the order of it.
fn show_destroyed(rt: &HostRuntime, tree: &mut PoolTree<char>, pool: PoolId) -> Result<()> {
    if !tree.is_live(pool) || pool == tree.root() {
        return Err(Missing.into());
    }
    for (at, payload) in tree.destroy(pool)? {
        println!(rt; "pool {at} hands on {payload}")?;
    }
    Ok(())
}

/// Destroys pool 2, under which pool 3 is, and tells whether they are live.
pub(crate) fn destroy_run_order(rt: &HostRuntime) -> Result<()> {
    println!(rt; "destroy_run_order: pool 2, with k, is destroyed, and pool 3 under it, with m")?;
    let mut tree = PoolTree::new(rt.alloc(), 1)?;
    let root = tree.root();
    let outer = create(&mut tree, root, 'k')?;
    let inner = create(&mut tree, outer, 'm')?;
    show_destroyed(rt, &mut tree, outer)?;
    for pool in [outer, inner] {
        println!(rt; "pool {pool} is live: {}", tree.is_live(pool))?;
    }
    Ok(())
}
