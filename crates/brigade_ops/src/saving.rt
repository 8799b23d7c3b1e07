//! The buckets of one brigade are set aside into the pool of another.

ghost use Rattle.std.specs.Prelude.{◌≡◌, ◌≢◌, ℕ, ◌+◌, ◌++◌, [], map, filter_map, Some, None, true, is_some, IsTrue, IsOk, IfOk, IfSome, OnOk, OnErr};
ghost use Rattle.std.specs.List.{cons_option};
ghost use Rattle.brigade_ops.specs.Prelude.{is_live, IsPoolMap, all_referred, new_ref, map_of, on, list_at, NoneRevived, times_in, named, aside_item, aside_behind, IsHouse};

use crate::aside::is_above;
use crate::references::refer_all;
use crate::store::{BrigadeId, Brigades};
use bucket_kinds::{FileNo, Stored};
use bucket_ring::{BucketId, Rings};
use pool_tree::{PoolId, PoolTree};
use run_model::{Home, Kind, Payload, Seq};
use std::alloc::AllocError;

/// Puts an item, where there is one, behind others.
pub(crate) fn push_some<T: Drop>(items: &mut Seq<T>, item: Option<T>) -> Result<(), AllocError>
    ensures ok { OnOk result (items.new ≡ items.old ++ cons_option item []) }
    ensures sure { item ≡ None → IsOk result }
{
    match item {
        Some(item) => items.push(item),
        None => Ok(()),
    }
}

#[tactic(auto, unfolding(crate::specs::Store::lists, crate::specs::Store::brigade_of, crate::specs::Store::pool_of, crate::specs::Store::next_name, crate::specs::Store::references, crate::specs::Files::count_at), using(pool_tree::proofs::Trees::tree_formed))]
impl<R: Rings<Stored> + Drop> Brigades<R> {
    ghost use Rattle.brigade_ops.specs.OnlyLists.{OnlyLists};
    ghost use Rattle.brigade_ops.specs.Store.{lists, brigade_of, pool_of, next_name, references};

    /// The files of which setting the buckets of a brigade aside takes further references.
    fn files_for(
        &self,
        tree: &PoolTree<Payload>,
        b: BrigadeId,
        pool: PoolId,
    ) -> Result<Seq<FileNo>, AllocError>
        requires there { is_some (lists self.now b) ≡ true }
        requires live { IsTrue (is_live (map_of tree.now) pool) }
        ensures ok { IfOk result (λ files. files ≡ filter_map (new_ref (map_of tree.now) pool) (named (list_at (lists self.now) b))) }
        ensures sure { filter_map (new_ref (map_of tree.now) pool) (named (list_at (lists self.now) b)) ≡ [] → IsOk result }
    {
        let mut files = Seq::new(self.alloc);
        let mut place = self.start(b);
        while let Some(id) = place {
            let (file, _above) = self.file_for(tree, id, pool);
            push_some(&mut files, file)?;
            place = self.behind(id);
        }
        Ok(files)
    }

    /// Sets the buckets of a brigade aside from a place on, where their files have references.
    fn put_all_aside(
        &mut self,
        tree: &PoolTree<Payload>,
        b: BrigadeId,
        from: Option<BucketId>,
        pool: PoolId,
    )
        requires inside { IfSome from (λ id. brigade_of self.old id ≡ Some b) }
        requires live { IsTrue (is_live (map_of tree.now) pool) }
        ensures out { (n : ℕ) → lists self.new n ≡ on b (aside_behind (map_of tree.now) pool from) (lists self.old) n }
        ensures others { OnlyLists self.old self.new }
    {
        let mut place = from;
        while let Some(id) = place {
            let above = is_above(tree, pool, self.payload(id).home);
            self.put_aside(id, pool, above);
            place = self.behind(id);
        }
    }

    /// Sets each bucket of `b` aside into the pool that `o` is on, and moves them to the tail of `o` (`ap_save_brigade`). A FILE bucket
    /// whose home is not above the pool gets a reference to its file there, and no other takes memory. Refused, nothing is changed.
    #[tactic(auto, unfolding(bucket_store::specs::BucketStore::seen, crate::specs::Store::lists, crate::specs::Store::brigade_of, crate::specs::Store::pool_of, crate::specs::Store::next_name, crate::specs::Store::references, crate::specs::Files::count_at), using(pool_tree::proofs::Trees::tree_formed))]
    pub fn save(
        &mut self,
        tree: &mut PoolTree<Payload>,
        o: BrigadeId,
        b: BrigadeId,
    ) -> Result<(), AllocError>
        requires onto { is_some (lists self.old o) ≡ true }
        requires from { is_some (lists self.old b) ≡ true }
        requires apart { o ≢ b }
        requires made { is_some (pool_of self.old o) ≡ true }
        requires live { (p : ℕ) → pool_of self.old o ≡ Some p → IsTrue (is_live (map_of tree.old) p) }
        ensures ok { OnOk result ((p n : ℕ) → pool_of self.old o ≡ Some p
            → lists self.new n ≡ on o (λ xs. xs ++ map (aside_item (map_of tree.old) p) (list_at (lists self.old) b)) (on b (λ xs. []) (lists self.old)) n) }
        ensures registered { OnOk result ((p : ℕ) → pool_of self.old o ≡ Some p
            → map_of tree.new ≡ all_referred p (filter_map (new_ref (map_of tree.old) p) (named (list_at (lists self.old) b))) (map_of tree.old)) }
        ensures counted { OnOk result ((p f : ℕ) → pool_of self.old o ≡ Some p
            → references self.new f ≡ references self.old f + times_in f (filter_map (new_ref (map_of tree.old) p) (named (list_at (lists self.old) b)))) }
        ensures next { next_name self.new ≡ next_name self.old }
        ensures names { NoneRevived (brigade_of self.old) (brigade_of self.new) (next_name self.old) }
        ensures pools { pool_of self.new ≡ pool_of self.old }
        ensures formed { IsPoolMap (map_of tree.new) }
        ensures sure { (p : ℕ) → pool_of self.old o ≡ Some p → filter_map (new_ref (map_of tree.old) p) (named (list_at (lists self.old) b)) ≡ [] → IsOk result }
        ensures err { OnErr result ((n : ℕ) → lists self.new n ≡ lists self.old n) }
        ensures kept { OnErr result (map_of tree.new ≡ map_of tree.old) }
        ensures uncounted { OnErr result ((f : ℕ) → references self.new f ≡ references self.old f) }
        ensures house { IsHouse self.old (map_of tree.old) → IsHouse self.new (map_of tree.new) }
        ensures unasked { self.new.asked ≡ self.old.asked }
        ensures tree_unasked { tree.new.asked ≡ tree.old.asked }
    {
        let Some(pool) = self.pools.get(o) else {
            unreachable!()
        };
        let files = self.files_for(tree, b, pool)?;
        let home = Home::Pool(pool);
        self.held
            .rings
            .dependents
            .make_room(Kind::File, home, files.len())?;
        let first = self.start(b);
        refer_all(&mut self.references, tree, pool, files.as_slice())?;
        self.held.splice_tail(o, b);
        self.put_all_aside(tree, o, first, pool);
        Ok(())
    }
}
