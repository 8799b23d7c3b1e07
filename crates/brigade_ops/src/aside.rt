//! A bucket of the store is set aside.

ghost use Rattle.std.specs.Prelude.{◌≡◌, ℕ, Some, None, true, is_some, IsTrue, IsOk, OnOk, OnErr};
ghost use Rattle.brigade_ops.specs.Prelude.{Bucket, is_live, IsPoolMap, set_aside, is_above, file_of, map_of, on, with_payload, NoneRevived, file_for, pools_for, count_for, Look, is_whole, IsHouse};
ghost use Rattle.brigade_ops.specs.Prelude.{place_of, lies_right, content_of};

use crate::store::Brigades;
use bucket_kinds::{FileNo, Kept, Stored, stored_aside};
use bucket_ring::{BucketId, Rings};
use bucket_store::{ContentView, View};
use pool_tree::{PoolId, PoolTree};
use run_model::{Content, Home, Kind, Payload};
use std::alloc::AllocError;

/// What stands in a bucket's place while that is changed: its kind, its home, and where it lies in a region, but no bytes of its own. So
/// it depends on the same pools, and nothing is noted anew when the bucket is put back.
pub(crate) fn hollow(bucket: &Stored) -> Stored
    ensures whole { (look : Look) → is_whole look bucket.now.kept ≡ true → is_whole look result.kept ≡ true }
    ensures lies { lies_right bucket.now.kind bucket.now.kept ≡ true → lies_right result.kind result.kept ≡ true }
    ensures place { place_of result.kept ≡ place_of bucket.now.kept }
{
    let kept = match &bucket.kept {
        Kept::Placed(place) => Kept::Placed(*place),
        Kept::Own(_) => Kept::Own(Content::Nothing),
    };
    Stored {
        kind: bucket.kind,
        kept,
        home: bucket.home,
    }
}

/// Whether the pool of a home is the target or stands above it; a pool that is gone is not.
pub(crate) fn is_above(pools: &PoolTree<Payload>, target: PoolId, home: Home) -> bool
    requires { IsTrue (is_live (map_of pools.now) target) }
    ensures { result ≡ is_above (map_of pools.now) target home }
{
    match home {
        Home::Pool(name) => pools.is_ancestor(name, target),
        Home::Free | Home::Call(_) | Home::Ended => false,
    }
}

/// The file of a FILE bucket.
fn file_of(bucket: View<'_>) -> Option<FileNo>
    ensures { result ≡ file_of bucket.entry.kind (content_of bucket.entry.content) }
{
    match (bucket.kind, bucket.content) {
        (Kind::File, ContentView::Range { file, .. }) => Some(file),
        _ => None,
    }
}

#[tactic(auto, unfolding(crate::specs::Store::lists, crate::specs::Store::brigade_of, crate::specs::Store::pool_of, crate::specs::Store::next_name, crate::specs::Store::references))]
impl<R: Rings<Stored> + Drop> Brigades<R> {
    ghost use Rattle.brigade_ops.specs.OnlyLists.{OnlyLists};
    ghost use Rattle.brigade_ops.specs.Store.{lists, brigade_of, bucket_at, pool_of, next_name, references};

    /// The file of which setting a bucket aside takes a further reference, and whether its home is the target or above it.
    pub(crate) fn file_for(
        &self,
        tree: &PoolTree<Payload>,
        id: BucketId,
        pool: PoolId,
    ) -> (Option<FileNo>, bool)
        requires there { is_some (brigade_of self.now id) ≡ true }
        requires live { IsTrue (is_live (map_of tree.now) pool) }
        ensures { (x : Bucket) → bucket_at self.now id ≡ Some x → result ≡ (file_for (map_of tree.now) pool x, is_above (map_of tree.now) pool x.home) }
    {
        let bucket = self.payload(id);
        if is_above(tree, pool, bucket.home) {
            (None, true)
        } else {
            (file_of(bucket), false)
        }
    }

    /// Sets a bucket aside, where its file has a reference.
    pub(crate) fn put_aside(&mut self, id: BucketId, pool: PoolId, above: bool)
        requires { is_some (brigade_of self.old id) ≡ true }
        ensures out { (b m : ℕ) (x : Bucket) → brigade_of self.old id ≡ Some b → bucket_at self.old id ≡ Some x
            → lists self.new m ≡ on b (with_payload id (set_aside pool above x)) (lists self.old) m }
        ensures others { OnlyLists self.old self.new }
    {
        let nothing = hollow(self.stored(id));
        let mut bucket = self.held.put(id, nothing);
        stored_aside(&mut bucket, pool, above);
        let _nothing = self.held.put(id, bucket);
    }

    /// Sets a bucket aside into a pool (`apr_bucket_setaside`). A FILE bucket whose home is not above the pool gets a reference to its
    /// file there, and no other takes memory. Refused, nothing is changed.
    #[tactic(auto)]
    pub fn aside(
        &mut self,
        tree: &mut PoolTree<Payload>,
        id: BucketId,
        pool: PoolId,
    ) -> Result<(), AllocError>
        requires there { is_some (brigade_of self.old id) ≡ true }
        requires live { IsTrue (is_live (map_of tree.old) pool) }
        ensures ok { OnOk result ((b m : ℕ) (x : Bucket) → brigade_of self.old id ≡ Some b → bucket_at self.old id ≡ Some x
            → lists self.new m ≡ on b (with_payload id (set_aside pool (is_above (map_of tree.old) pool x.home) x)) (lists self.old) m) }
        ensures registered { OnOk result ((x : Bucket) → bucket_at self.old id ≡ Some x → map_of tree.new ≡ pools_for pool (file_for (map_of tree.old) pool x) (map_of tree.old)) }
        ensures counted { OnOk result ((x : Bucket) (f : ℕ) → bucket_at self.old id ≡ Some x → references self.new f ≡ count_for f (file_for (map_of tree.old) pool x) (references self.old f)) }
        ensures next { next_name self.new ≡ next_name self.old }
        ensures names { NoneRevived (brigade_of self.old) (brigade_of self.new) (next_name self.old) }
        ensures pools { pool_of self.new ≡ pool_of self.old }
        ensures formed { IsPoolMap (map_of tree.new) }
        ensures sure { (x : Bucket) → bucket_at self.old id ≡ Some x → file_for (map_of tree.old) pool x ≡ None → IsOk result }
        ensures err { OnErr result ((m : ℕ) → lists self.new m ≡ lists self.old m) }
        ensures kept { OnErr result (map_of tree.new ≡ map_of tree.old) }
        ensures uncounted { OnErr result ((f : ℕ) → references self.new f ≡ references self.old f) }
        ensures house { IsHouse self.old (map_of tree.old) → IsHouse self.new (map_of tree.new) }
        ensures unasked { self.new.asked ≡ self.old.asked }
        ensures tree_unasked { tree.new.asked ≡ tree.old.asked }
    {
        let (file, above) = self.file_for(tree, id, pool);
        self.refer_for(tree, pool, file)?;
        self.put_aside(id, pool, above);
        Ok(())
    }
}
