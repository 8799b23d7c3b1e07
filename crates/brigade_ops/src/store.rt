//! The store of brigades.

ghost use Rattle.std.specs.Prelude.{◌≡◌, ℕ, None};

use bucket_kinds::Stored;
use bucket_ring::{RingId, Rings};
use bucket_store::BucketStore;
use name_table::NameTable;
use std::alloc::Global;

/// The name of a brigade, which is never given again.
pub type BrigadeId = RingId;

/// Brigades (apr_buckets.h, `apr_bucket_brigade`): rings of buckets, each on a pool or on none.
#[derive(Drop)]
pub struct Brigades<R: Rings<Stored>> {
    pub(crate) alloc: Global,
    pub(crate) held: BucketStore<R>,
    pub(crate) pools: NameTable<u64>,
    pub(crate) references: NameTable<u64>,
    pub(crate) asked: u64,
}

#[tactic(auto, unfolding(crate::specs::Store::lists, crate::specs::Store::pool_of, crate::specs::Store::next_name, crate::specs::Store::references))]
impl<R: Rings<Stored> + Drop> Brigades<R> {
    ghost use Rattle.brigade_ops.specs.Store.{lists, pool_of, next_name, references};

    /// No brigades; the first name is `first`.
    pub fn new(alloc: Global, first: u64) -> Self
        ensures empty { (n : ℕ) → lists result n ≡ None }
        ensures loose { (n : ℕ) → pool_of result n ≡ None }
        ensures unreferred { (f : ℕ) → references result f ≡ 0 }
        ensures next { next_name result ≡ first }
        ensures asked { result.asked ≡ 0 }
    {
        Brigades {
            alloc,
            held: BucketStore::new(alloc, first),
            pools: NameTable::new(alloc),
            references: NameTable::new(alloc),
            asked: 0,
        }
    }

    /// The name that the next brigade or bucket would get.
    pub fn next_name(&self) -> u64
        ensures { result ≡ next_name self.now }
    {
        self.held.next_name()
    }

    /// How often it was asked whether a brigade or a bucket is there (`has`, `ring_of`). At `u64::MAX` it stays.
    pub fn asked(&self) -> u64
        ensures { result ≡ self.now.asked }
    {
        self.asked
    }
}
