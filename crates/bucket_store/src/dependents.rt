//! Which buckets depend on a pool.

ghost use Rattle.std.specs.Prelude.{◌≡◌, ◌↔◌, ◌==◌, ◌++◌, ℕ, [], ◌∷◌, true, false, if◌then◌else◌, IsOk, OnOk};
ghost use Rattle.bucket_ring.specs.declared.names.BucketId.{BucketId};
ghost use Rattle.bucket_store.specs.Dependents.{StayNoted};
ghost use Rattle.bucket_store.specs.Noted.{kind_under, home_under, place_under};

use bucket_ring::{BucketId, RingRefusal};
use name_table::NameHasher;
use run_model::{Home, Kind};
use std::alloc::{AllocError, Global};
use std::collections::HashMap;
use std::hash::BuildHasherDefault;

/// So many names come under a pool before it is looked at which of them have gone.
pub(crate) const FIRST_LIMIT: usize = 8;

/// The names under one pool, and how many there may be before it is looked at which of them have gone.
#[derive(Drop)]
pub(crate) struct DependentNames {
    pub(crate) ids: Vec<BucketId>,
    pub(crate) limit: usize,
}

/// For each pool the names of the buckets that depend on it: those whose bytes lie in it, and those whose home it is. Names of buckets
/// that are gone, or depend on it no more, may linger. The calls of a store make room for a name before they put its bucket in or give it
/// the pool as its home, and are refused where there is none. A name for which nobody made room, and which finds none, is lost, and all
/// others with it; then nothing is said of any pool.
#[derive(Drop)]
pub struct Dependents {
    pub(crate) alloc: Global,
    pub(crate) names: HashMap<u64, DependentNames, BuildHasherDefault<NameHasher>>,
    pub(crate) lost: bool,
}

#[tactic(auto, unfolding(crate::specs::Dependents::names_of, crate::specs::Dependents::noted), using(crate::proofs::Pruned::same_names))]
impl Dependents {
    ghost use Rattle.bucket_store.specs.Dependents.{names_of, noted};

    pub(crate) fn new(alloc: Global) -> Self {
        Dependents {
            alloc,
            names: HashMap::with_hasher(alloc, BuildHasherDefault::new()),
            lost: false,
        }
    }

    /// Whether the names were lost.
    pub fn is_lost(&self) -> bool
        ensures { result ≡ self.now.lost }
    {
        self.lost
    }

    /// The names that are noted under a pool.
    pub fn names(&self, pool: u64) -> &[BucketId]
        ensures { result.now ≡ names_of self.now pool }
    {
        match self.names.get(&pool) {
            Some(names) => names.ids.as_slice(),
            None => &[],
        }
    }

    /// Puts a name under a pool.
    fn push(&mut self, pool: u64, id: BucketId) -> Result<(), AllocError>
        ensures lost { self.new.lost ≡ self.old.lost }
        ensures ok { OnOk result ((p : ℕ) → names_of self.new p ≡ (if p == pool then names_of self.old p ++ id ∷ [] else names_of self.old p)) }
    {
        if let Some(names) = self.names.get_mut(&pool) {
            names.ids.push(id)?;
            return Ok(());
        }
        let mut ids = Vec::new(self.alloc);
        ids.push(id)?;
        let limit = FIRST_LIMIT;
        self.names.insert(pool, DependentNames { ids, limit })?;
        Ok(())
    }

    /// Makes room for more names under a pool.
    fn make_room_under(&mut self, pool: u64, more: usize) -> Result<(), AllocError>
        ensures names { (p : ℕ) → names_of self.new p ≡ names_of self.old p }
        ensures lost { self.new.lost ≡ self.old.lost }
    {
        if let Some(names) = self.names.get_mut(&pool) {
            return names.ids.reserve(more);
        }
        let mut ids = Vec::new(self.alloc);
        ids.reserve(more)?;
        let limit = FIRST_LIMIT;
        self.names.insert(pool, DependentNames { ids, limit })?;
        Ok(())
    }

    /// Makes room for so many names under the pools of a kind and a home.
    fn make_room_for_names(&mut self, kind: Kind, home: Home, more: usize) -> Result<(), AllocError>
        ensures names { (p : ℕ) → names_of self.new p ≡ names_of self.old p }
        ensures lost { self.new.lost ≡ self.old.lost }
    {
        if let Kind::Pool(pool) = kind {
            self.make_room_under(pool, more)?;
        }
        if let Home::Pool(pool) = home {
            self.make_room_under(pool, more)?;
        }
        Ok(())
    }

    /// Makes room for the names of so many buckets of this kind and home, each under its pools. What is noted stays so, also where it is
    /// refused.
    pub fn make_room(&mut self, kind: Kind, home: Home, buckets: usize) -> Result<(), AllocError>
        ensures kept { StayNoted self.old self.new }
        ensures sure { buckets ≡ 0 → IsOk result }
    {
        if buckets == 0 {
            return Ok(());
        }
        self.make_room_for_names(kind, home, buckets.saturating_mul(2))
    }

    /// Makes room for the names of a new bucket, which gets the next name. `NamesSpent`: that is `u64::MAX`.
    pub fn make_room_for(&mut self, next: u64, kind: Kind, home: Home) -> Result<(), RingRefusal>
        ensures kept { StayNoted self.old self.new }
        ensures spent { (result ≡ Err RingRefusal.NamesSpent) ↔ (next ≡ u64.MAX) }
    {
        if next == u64::MAX {
            return Err(RingRefusal::NamesSpent);
        }
        self.make_room(kind, home, 1)?;
        Ok(())
    }

    /// Gives all names up.
    fn lose(&mut self)
        ensures { self.new.lost ≡ true }
    {
        self.names.clear();
        self.lost = true;
    }

    /// Whether so many names came under a pool that some of them may well have gone.
    pub(crate) fn is_full(&self, pool: u64) -> bool {
        match self.names.get(&pool) {
            Some(names) => names.ids.len() >= names.limit,
            None => false,
        }
    }

    /// Whether it is known that no bucket depends on a pool.
    pub(crate) fn has_none(&self, pool: u64) -> bool
        ensures none { result ≡ true → names_of self.now pool ≡ [] }
        ensures kept { result ≡ true → self.now.lost ≡ false }
        ensures sure { names_of self.now pool ≡ [] → self.now.lost ≡ false → result ≡ true }
    {
        if self.lost {
            return false;
        }
        self.names(pool).is_empty()
    }

    /// Takes a pool out that has no names.
    pub(crate) fn drop_empty(&mut self, pool: u64)
        ensures names { (p : ℕ) → names_of self.new p ≡ names_of self.old p }
        ensures lost { self.new.lost ≡ self.old.lost }
    {
        if self.names(pool).is_empty() {
            self.names.remove(&pool);
        }
    }

    /// Notes a bucket under a pool.
    fn note_under(&mut self, pool: u64, id: BucketId)
        ensures here { noted self.new pool id ≡ true }
        ensures kept { (p : ℕ) (j : BucketId) → noted self.old p j ≡ true → noted self.new p j ≡ true }
    {
        if !self.lost && self.push(pool, id).is_err() {
            self.lose();
        }
    }

    /// Notes a bucket under the pool in whose region its bytes lie, where that is not done by its kind.
    fn note_placed(&mut self, pool: u64, id: BucketId, kind: Kind)
        requires { kind_under (λ p. noted self.old p id) kind ≡ true }
        ensures here { noted self.new pool id ≡ true }
        ensures kept { (p : ℕ) (j : BucketId) → noted self.old p j ≡ true → noted self.new p j ≡ true }
    {
        match kind {
            Kind::Pool(name) if name == pool => {}
            _ => self.note_under(pool, id),
        }
    }

    /// Notes a bucket under the pools that it depends on.
    pub(crate) fn note(&mut self, id: BucketId, kind: Kind, home: Home, place: Option<u64>)
        ensures kind { kind_under (λ p. noted self.new p id) kind ≡ true }
        ensures home { home_under (λ p. noted self.new p id) home ≡ true }
        ensures place { place_under (λ p. noted self.new p id) place ≡ true }
        ensures kept { (p : ℕ) (j : BucketId) → noted self.old p j ≡ true → noted self.new p j ≡ true }
    {
        if let Kind::Pool(pool) = kind {
            self.note_under(pool, id);
        }
        if let Home::Pool(pool) = home {
            self.note_under(pool, id);
        }
        if let Some(pool) = place {
            self.note_placed(pool, id, kind);
        }
    }
}
