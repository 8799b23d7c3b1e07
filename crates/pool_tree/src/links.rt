//! Changes of the links between the records.

ghost use Rattle.std.specs.Prelude.{◌≡◌, ℕ, None, Some, is_some, true, if◌then◌else◌, OnOk, OnErr};
ghost use Rattle.pool_tree.specs.Records.{record_of, newest_of};
ghost use Rattle.pool_tree.specs.Links.{IsChildAdded, HasNeighbours, IsRemoved};

use crate::records::{Pool, Records};
use std::alloc::{AllocError, Global};

/// Adds a child to a pool, under a name that is no pool's. Without memory nothing is changed.
pub(crate) fn add_child<T: Drop>(
    records: &mut Records<T>,
    alloc: Global,
    name: u64,
    parent: u64,
) -> Result<(), AllocError>
    requires free { record_of records.old name ≡ None }
    requires live { is_some (record_of records.old parent) ≡ true }
    requires last { (n : ℕ) → newest_of (record_of records.old) parent ≡ Some n → is_some (record_of records.old n) ≡ true }
    ensures ok { OnOk result (IsChildAdded name parent (record_of records.old) (record_of records.new)) }
    ensures err { OnErr result ((n : ℕ) → record_of records.new n ≡ record_of records.old n) }
{
    let older = records.newest(parent);
    let pool = Pool {
        parent: Some(parent),
        newest: None,
        older,
        younger: None,
        pre: Vec::new(alloc),
        plain: Vec::new(alloc),
    };
    records.put(name, pool)?;
    records.set_newest(Some(parent), Some(name));
    records.set_younger(older, Some(name));
    Ok(())
}

/// The pool above this one, where this one is its newest child.
fn newest_child_of<T>(pool: &Pool<T>) -> Option<u64>
    ensures { result ≡ (if is_some pool.now.younger then None else pool.now.parent) }
{
    match pool.younger {
        Some(_) => None,
        None => pool.parent,
    }
}

/// Takes out a pool that has no children, and links those beside it and above it past it.
pub(crate) fn remove_leaf<T: Drop>(records: &mut Records<T>, name: u64)
    requires { HasNeighbours name (record_of records.old) }
    ensures { IsRemoved name (record_of records.old) (record_of records.new) }
{
    if let Some(pool) = records.take(name) {
        records.set_younger(pool.older, pool.younger);
        records.set_older(pool.younger, pool.older);
        records.set_newest(newest_child_of(&pool), pool.older);
    }
}
