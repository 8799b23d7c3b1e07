//! The regions of pools that hold bytes.

ghost use Rattle.std.specs.Prelude.{◌≡◌, ◌≢◌, ℕ, Some, None, true, is_some, length, IfOk};
ghost use Rattle.apr_region.specs.declared.region.Span.{Span};
ghost use Rattle.run_model.specs.Cutting.{heap_of};
ghost use Rattle.bucket_kinds.specs.Stored.{part, has_part, pool_bucket};

use apr_region::Region;
use bucket_kinds::{RegionBytes, Stored, heap_copy, place_pool, placed_bytes};
use name_table::NameHasher;
use run_model::{Bucket, Content};
use std::alloc::{AllocError, Global};
use std::collections::HashMap;
use std::hash::BuildHasherDefault;

/// A region for each pool that bytes were placed in since its last clear.
#[derive(Drop)]
pub struct Regions {
    pub(crate) alloc: Global,
    pub(crate) by_pool: HashMap<u64, Region, BuildHasherDefault<NameHasher>>,
}

#[tactic(auto, unfolding(crate::specs::Regions::look))]
impl Regions {
    ghost use Rattle.bucket_store.specs.Regions.{look};

    pub(crate) fn new(alloc: Global) -> Self
        ensures { (p : ℕ) (s : Span) → look result p s ≡ None }
    {
        Regions {
            alloc,
            by_pool: HashMap::with_hasher(alloc, BuildHasherDefault::new()),
        }
    }

    /// Copies bytes into the region of a pool, and gives a POOL bucket of them. All that lay in regions lies there still, also where it is
    /// refused.
    pub(crate) fn place(&mut self, pool: u64, bytes: &[u8]) -> Result<Stored, AllocError>
        ensures placed { IfOk result (λ x. (span : Span) × (x ≡ pool_bucket pool span (length bytes.now)) × (look self.new pool span ≡ Some bytes.now)) }
        ensures kept { (p : ℕ) (s : Span) → is_some (look self.old p s) ≡ true → look self.new p s ≡ look self.old p s }
    {
        if let Some(region) = self.by_pool.get_mut(&pool) {
            return place_pool(pool, region, bytes);
        }
        let mut region = Region::new(self.alloc);
        let placed = place_pool(pool, &mut region, bytes)?;
        self.by_pool.insert(pool, region)?;
        Ok(placed)
    }

    /// The bytes at a place.
    pub fn bytes(&self, place: RegionBytes) -> &[u8]
        requires { has_part (look self.now place.pool place.span) place ≡ true }
        ensures { result.now ≡ part (look self.now place.pool place.span) place }
    {
        match self.by_pool.get(&place.pool) {
            Some(region) => placed_bytes(region, place),
            None => unreachable!(),
        }
    }

    /// A HEAP bucket of the bytes at a place.
    pub fn heap_copy(&self, place: RegionBytes) -> Result<Bucket, AllocError>
        requires { has_part (look self.now place.pool place.span) place ≡ true }
        ensures { IfOk result (λ x. x ≡ heap_of (Content.Bytes (part (look self.now place.pool place.span) place))) }
    {
        match self.by_pool.get(&place.pool) {
            Some(region) => heap_copy(self.alloc, region, place),
            None => unreachable!(),
        }
    }

    /// Gives up the region of a pool, where there is one.
    pub(crate) fn free(&mut self, pool: u64)
        ensures others { (p : ℕ) (s : Span) → p ≢ pool → look self.new p s ≡ look self.old p s }
        ensures gone { (s : Span) → look self.new pool s ≡ None }
    {
        self.by_pool.remove(&pool);
    }
}
