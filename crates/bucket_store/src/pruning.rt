//! Names of buckets that are gone, or depend on their pool no more, are thrown out.

ghost use Rattle.std.specs.Prelude.{◌≡◌, ◌≢◌, ◌==◌, ℕ, Bool, true, filter, if◌then◌else◌};
ghost use Rattle.bucket_store.specs.Dependents.{names_of, noted};
ghost use Rattle.bucket_store.specs.Due.{place_reached, kind_reached, home_reached};
ghost use Rattle.bucket_store.specs.Noted.{bucket_named, kind_under, home_under, place_under, place_of, still_under, AreNoted};

use crate::dependents::{Dependents, FIRST_LIMIT};
use bucket_kinds::{Kept, Stored};
use bucket_ring::{BucketId, Rings};
use run_model::{Home, Kind};

/// Whether bytes lie in a pool.
fn lies_in(kind: Kind, pool: u64) -> bool
    ensures { result ≡ kind_reached (λ p. p == pool) kind }
{
    match kind {
        Kind::Pool(name) => name == pool,
        Kind::Heap | Kind::Transient | Kind::Immortal | Kind::File | Kind::Flush | Kind::Eos => {
            false
        }
    }
}

/// Whether a home is a pool.
fn is_home(home: Home, pool: u64) -> bool
    ensures { result ≡ home_reached (λ p. p == pool) home }
{
    match home {
        Home::Pool(name) => name == pool,
        Home::Free | Home::Call(_) | Home::Ended => false,
    }
}

/// The pool in whose region bytes lie.
pub(crate) fn place_of(kept: &Kept) -> Option<u64>
    ensures { result ≡ place_of kept.now }
{
    match kept {
        Kept::Own(_) => None,
        Kept::Placed(place) => Some(place.pool),
    }
}

/// Whether bytes lie in the region of a pool.
fn is_placed(place: Option<u64>, pool: u64) -> bool
    ensures { result ≡ place_reached (λ p. p == pool) place }
{
    match place {
        Some(name) => name == pool,
        None => false,
    }
}

/// Whether a bucket that gets this kind, home and place depends on no pool that it did not depend on before by the like.
pub(crate) fn keeps_pools(had: &Stored, kind: Kind, home: Home, place: Option<u64>) -> bool
    ensures kind { (test : ℕ → Bool) → result ≡ true → kind_under test had.now.kind ≡ true → kind_under test kind ≡ true }
    ensures home { (test : ℕ → Bool) → result ≡ true → home_under test had.now.home ≡ true → home_under test home ≡ true }
    ensures place { (test : ℕ → Bool) → result ≡ true → place_under test (place_of had.now.kept) ≡ true → place_under test place ≡ true }
{
    let lies = match kind {
        Kind::Pool(pool) => lies_in(had.kind, pool),
        Kind::Heap | Kind::Transient | Kind::Immortal | Kind::File | Kind::Flush | Kind::Eos => {
            true
        }
    };
    let stays = match home {
        Home::Pool(pool) => is_home(had.home, pool),
        Home::Free | Home::Call(_) | Home::Ended => true,
    };
    let rests = match place {
        Some(pool) => is_placed(place_of(&had.kept), pool),
        None => true,
    };
    lies && stays && rests
}

/// Whether there is a bucket of this name that depends on a pool.
pub(crate) fn depends_there<R: Rings<Stored>>(rings: &R, id: BucketId, pool: u64) -> bool
    ensures { result ≡ still_under pool (bucket_named (R.ring_at rings.now) (R.lists rings.now) id) }
{
    if rings.ring_of(id).is_none() {
        return false;
    }
    let bucket = rings.payload(id);
    lies_in(bucket.kind, pool)
        || is_home(bucket.home, pool)
        || is_placed(place_of(&bucket.kept), pool)
}

/// Keeps the names of buckets that depend on a pool.
fn keep_dependent<R: Rings<Stored>>(names: &mut Vec<BucketId>, rings: &R, pool: u64)
    ensures { names.new.items ≡ filter (λ id. still_under pool (bucket_named (R.ring_at rings.now) (R.lists rings.now) id)) names.old.items }
{
    names.retain(|id| depends_there(rings, *id, pool));
}

/// Throws names out from under a pool.
#[tactic(auto, unfolding(crate::specs::Dependents::names_of))]
fn prune_names<R: Rings<Stored>>(dependents: &mut Dependents, rings: &R, pool: u64)
    ensures names { (p : ℕ) → names_of dependents.new p
        ≡ (if p == pool then filter (λ id. still_under pool (bucket_named (R.ring_at rings.now) (R.lists rings.now) id)) (names_of dependents.old p) else names_of dependents.old p) }
    ensures lost { dependents.new.lost ≡ dependents.old.lost }
{
    if let Some(names) = dependents.names.get_mut(&pool) {
        keep_dependent(&mut names.ids, rings, pool);
        names.limit = names
            .ids
            .len()
            .saturating_mul(2)
            .saturating_add(FIRST_LIMIT);
    }
}

/// Throws out the names under a pool whose buckets are gone or depend on it no more. It takes no memory.
pub(crate) fn prune<R: Rings<Stored>>(dependents: &mut Dependents, rings: &R, pool: u64)
    ensures noted { AreNoted (noted dependents.old) (R.lists rings.now) → AreNoted (noted dependents.new) (R.lists rings.now) }
    ensures names { names_of dependents.new pool ≡ filter (λ id. still_under pool (bucket_named (R.ring_at rings.now) (R.lists rings.now) id)) (names_of dependents.old pool) }
    ensures others { (p : ℕ) → p ≢ pool → names_of dependents.new p ≡ names_of dependents.old p }
    ensures lost { dependents.new.lost ≡ dependents.old.lost }
{
    prune_names(dependents, rings, pool);
}

/// Throws them out where so many names came since the last time that it is worth while.
fn tidy_pool<R: Rings<Stored>>(dependents: &mut Dependents, rings: &R, pool: u64)
    ensures { AreNoted (noted dependents.old) (R.lists rings.now) → AreNoted (noted dependents.new) (R.lists rings.now) }
{
    if dependents.is_full(pool) {
        prune(dependents, rings, pool);
    }
}

/// Throws out names under the pools that a bucket depends on, where it is worth while.
pub(crate) fn tidy<R: Rings<Stored>>(dependents: &mut Dependents, rings: &R, kind: Kind, home: Home)
    ensures { AreNoted (noted dependents.old) (R.lists rings.now) → AreNoted (noted dependents.new) (R.lists rings.now) }
{
    if let Kind::Pool(pool) = kind {
        tidy_pool(dependents, rings, pool);
    }
    if let Home::Pool(pool) = home {
        tidy_pool(dependents, rings, pool);
    }
}
