//! The linked records of the pools, by name.

ghost use Rattle.std.specs.Prelude.{◌≡◌, ℕ, None, Some, length, nat_eq, OnOk, OnErr};
ghost use Rattle.std.specs.Option.{option_copied};
ghost use Rattle.run_model.specs.Indexed.{upd};
ghost use Rattle.run_model.specs.Pools.{held_as};

use name_table::NameHasher;
use run_model::CleanupKind;
use std::alloc::{AllocError, Global};
use std::collections::HashMap;
use std::hash::BuildHasherDefault;

/// A pool, with the names of the pools that it is linked to.
#[derive(Drop)]
pub(crate) struct Pool<T> {
    /// The pool above; the root has none.
    pub(crate) parent: Option<u64>,
    /// The child that was made last.
    pub(crate) newest: Option<u64>,
    /// The child of the same pool that was made before this one.
    pub(crate) older: Option<u64>,
    /// The child of the same pool that was made after this one.
    pub(crate) younger: Option<u64>,
    /// What a clear hands on before what the pools under it do, oldest first.
    pub(crate) pre: Vec<T>,
    /// What a clear hands on after that, oldest first.
    pub(crate) plain: Vec<T>,
}

/// The pools by name.
#[derive(Drop)]
pub(crate) struct Records<T> {
    pub(crate) by_name: HashMap<u64, Pool<T>, BuildHasherDefault<NameHasher>>,
}

#[tactic(auto, unfolding(crate::specs::Records::record_of, run_model::specs::Indexed::upd, crate::specs::Records::changed))]
impl<T: Drop> Records<T> {
    ghost use Rattle.pool_tree.specs.Records.{record_of, changed, parent_of, newest_of, older_of, younger_of, payloads_of};

    /// No pool.
    pub(crate) fn new(alloc: Global) -> Self
        ensures { (n : ℕ) → record_of result n ≡ None }
    {
        Records {
            by_name: HashMap::with_hasher(alloc, BuildHasherDefault::new()),
        }
    }

    /// The pool of a name.
    pub(crate) fn get(&self, name: u64) -> Option<&Pool<T>>
        ensures { option_copied result ≡ record_of self.now name }
    {
        self.by_name.get(&name)
    }

    /// Puts a pool under a name. Without memory nothing is changed.
    pub(crate) fn put(&mut self, name: u64, pool: Pool<T>) -> Result<(), AllocError>
        ensures ok { OnOk result ((n : ℕ) → record_of self.new n ≡ upd (record_of self.old) name (Some pool) n) }
        ensures err { OnErr result ((n : ℕ) → record_of self.new n ≡ record_of self.old n) }
    {
        self.by_name.insert(name, pool)?;
        Ok(())
    }

    /// Takes the pool of a name out.
    pub(crate) fn take(&mut self, name: u64) -> Option<Pool<T>>
        ensures value { result ≡ record_of self.old name }
        ensures rest { (n : ℕ) → record_of self.new n ≡ upd (record_of self.old) name None n }
    {
        self.by_name.remove(&name)
    }

    /// The pool above.
    pub(crate) fn parent(&self, name: u64) -> Option<u64>
        ensures { result ≡ parent_of (record_of self.now) name }
    {
        match self.by_name.get(&name) {
            Some(pool) => pool.parent,
            None => None,
        }
    }

    /// The child of a pool that was made last.
    pub(crate) fn newest(&self, name: u64) -> Option<u64>
        ensures { result ≡ newest_of (record_of self.now) name }
    {
        match self.by_name.get(&name) {
            Some(pool) => pool.newest,
            None => None,
        }
    }

    /// The child of the same pool that was made before this one.
    pub(crate) fn older(&self, name: u64) -> Option<u64>
        ensures { result ≡ older_of (record_of self.now) name }
    {
        match self.by_name.get(&name) {
            Some(pool) => pool.older,
            None => None,
        }
    }

    /// The child of the same pool that was made after this one.
    pub(crate) fn younger(&self, name: u64) -> Option<u64>
        ensures { result ≡ younger_of (record_of self.now) name }
    {
        match self.by_name.get(&name) {
            Some(pool) => pool.younger,
            None => None,
        }
    }

    /// The payloads of a pool that are of a kind, oldest first.
    pub(crate) fn payloads(&self, kind: CleanupKind, name: u64) -> &[T]
        ensures { result.now ≡ held_as kind (payloads_of (record_of self.now) name) }
    {
        match self.by_name.get(&name) {
            Some(pool) => match kind {
                CleanupKind::Pre => pool.pre.as_slice(),
                CleanupKind::Plain => pool.plain.as_slice(),
            },
            None => &[],
        }
    }

    /// How many payloads a pool hands on in a turn.
    pub(crate) fn payload_count(&self, turn: (u64, CleanupKind)) -> usize
        ensures { result ≡ length (held_as turn.1 (payloads_of (record_of self.now) turn.0)) }
    {
        match self.by_name.get(&turn.0) {
            Some(pool) => match turn.1 {
                CleanupKind::Pre => pool.pre.len(),
                CleanupKind::Plain => pool.plain.len(),
            },
            None => 0,
        }
    }

    /// Sets the newest child of a pool, where there is one.
    pub(crate) fn set_newest(&mut self, link: Option<u64>, newest: Option<u64>)
        ensures { (n : ℕ) → record_of self.new n ≡ changed link (λ pool. record pool { newest = newest }) (record_of self.old) n }
    {
        if let Some(name) = link {
            if let Some(pool) = self.by_name.get_mut(&name) {
                pool.newest = newest;
            }
        }
    }

    /// Sets the next older child beside a pool, where there is one.
    pub(crate) fn set_older(&mut self, link: Option<u64>, older: Option<u64>)
        ensures { (n : ℕ) → record_of self.new n ≡ changed link (λ pool. record pool { older = older }) (record_of self.old) n }
    {
        if let Some(name) = link {
            if let Some(pool) = self.by_name.get_mut(&name) {
                pool.older = older;
            }
        }
    }

    /// Sets the next younger child beside a pool, where there is one.
    pub(crate) fn set_younger(&mut self, link: Option<u64>, younger: Option<u64>)
        ensures { (n : ℕ) → record_of self.new n ≡ changed link (λ pool. record pool { younger = younger }) (record_of self.old) n }
    {
        if let Some(name) = link {
            if let Some(pool) = self.by_name.get_mut(&name) {
                pool.younger = younger;
            }
        }
    }
}
