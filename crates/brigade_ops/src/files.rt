//! References to files, and what ends with a pool.

ghost use Rattle.std.specs.Prelude.{◌≡◌, ◌<◌, ◌≤◌, ℕ, ◌+◌, ◌==◌, ◌&&◌, if◌then◌else◌, None, true, IsTrue, IsOk, OnOk, OnErr};
ghost use Rattle.std.specs.List.{list_any};
ghost use Rattle.brigade_ops.specs.Prelude.{is_live, registered, IsPoolMap, is_brigade, is_file_ref, map_of, NoneRevived, Missing, is_there, pools_for, count_for, refs_in, is_let_go, SameButOpen};
ghost use Rattle.brigade_ops.specs.Prelude.{IsHouse};

use crate::references::refer;
use crate::store::{BrigadeId, Brigades};
use bucket_kinds::{FileNo, Files, Stored};
use bucket_ring::Rings;
use pool_tree::{PoolId, PoolTree};
use run_model::{Home, Kind, Payload};
use std::alloc::AllocError;

#[tactic(auto, unfolding(crate::specs::Store::lists, crate::specs::Store::brigade_of, crate::specs::Store::bucket_at, crate::specs::Store::pool_of, crate::specs::Store::next_name, crate::specs::Store::references, crate::specs::Files::count_at, bucket_ring::specs::Lists::upd), using(pool_tree::proofs::Trees::tree_formed))]
impl<R: Rings<Stored> + Drop> Brigades<R> {
    ghost use Rattle.brigade_ops.specs.Store.{lists, brigade_of, bucket_at, pool_of, next_name, references};

    /// Registers a reference to a file with a pool, and counts it. Refused, nothing is changed.
    pub fn refer(
        &mut self,
        tree: &mut PoolTree<Payload>,
        pool: PoolId,
        file: FileNo,
    ) -> Result<(), AllocError>
        requires { IsTrue (is_live (map_of tree.old) pool) }
        ensures ok { OnOk result (map_of tree.new ≡ registered pool (Payload.FileRef file) (map_of tree.old)) }
        ensures counted { OnOk result ((f : ℕ) → references self.new f ≡ (if f == file then references self.old f + 1 else references self.old f)) }
        ensures lists { lists self.new ≡ lists self.old }
        ensures buckets { bucket_at self.new ≡ bucket_at self.old }
        ensures brigades { brigade_of self.new ≡ brigade_of self.old }
        ensures pools { pool_of self.new ≡ pool_of self.old }
        ensures next { next_name self.new ≡ next_name self.old }
        ensures names { NoneRevived (brigade_of self.old) (brigade_of self.new) (next_name self.old) }
        ensures formed { IsPoolMap (map_of tree.new) }
        ensures kept { OnErr result (map_of tree.new ≡ map_of tree.old) }
        ensures uncounted { OnErr result ((f : ℕ) → references self.new f ≡ references self.old f) }
        ensures house { IsHouse self.old (map_of tree.old) → IsHouse self.new (map_of tree.new) }
        ensures unasked { self.new.asked ≡ self.old.asked }
        ensures tree_unasked { tree.new.asked ≡ tree.old.asked }
    {
        refer(&mut self.references, tree, pool, file)
    }

    /// Registers a reference to a file, where one is named, as `refer` does.
    #[tactic(auto, unfolding(crate::specs::Store::references))]
    pub(crate) fn refer_for(
        &mut self,
        tree: &mut PoolTree<Payload>,
        pool: PoolId,
        file: Option<FileNo>,
    ) -> Result<(), AllocError>
        requires { IsTrue (is_live (map_of tree.old) pool) }
        ensures ok { OnOk result (map_of tree.new ≡ pools_for pool file (map_of tree.old)) }
        ensures counted { OnOk result ((f : ℕ) → references self.new f ≡ count_for f file (references self.old f)) }
        ensures lists { lists self.new ≡ lists self.old }
        ensures buckets { bucket_at self.new ≡ bucket_at self.old }
        ensures brigades { brigade_of self.new ≡ brigade_of self.old }
        ensures pools { pool_of self.new ≡ pool_of self.old }
        ensures next { next_name self.new ≡ next_name self.old }
        ensures names { NoneRevived (brigade_of self.old) (brigade_of self.new) (next_name self.old) }
        ensures formed { IsPoolMap (map_of tree.new) }
        ensures sure { file ≡ None → IsOk result }
        ensures kept { OnErr result (map_of tree.new ≡ map_of tree.old) }
        ensures uncounted { OnErr result ((f : ℕ) → references self.new f ≡ references self.old f) }
        ensures house { IsHouse self.old (map_of tree.old) → IsHouse self.new (map_of tree.new) }
        ensures unasked { self.new.asked ≡ self.old.asked }
        ensures tree_unasked { tree.new.asked ≡ tree.old.asked }
    {
        match file {
            Some(file) => {
                self.held
                    .rings
                    .dependents
                    .make_room(Kind::File, Home::Pool(pool), 1)?;
                self.refer(tree, pool, file)
            }
            None => Ok(()),
        }
    }

    /// Ends a brigade, where there is one of this name.
    fn end(&mut self, b: BrigadeId)
        ensures out { (n : ℕ) → lists self.new n ≡ (if b == n then None else lists self.old n) }
        ensures off { (n : ℕ) → pool_of self.new n ≡ (if b == n then None else pool_of self.old n) }
        ensures next { next_name self.new ≡ next_name self.old }
        ensures names { NoneRevived (brigade_of self.old) (brigade_of self.new) (next_name self.old) }
        ensures references { (f : ℕ) → references self.new f ≡ references self.old f }
        ensures unasked { self.new.asked ≡ self.old.asked }
    {
        self.pools.remove(b);
        if self.held.has_ring(b) {
            self.held.end_ring(b);
        }
    }

    /// Ends a reference to a file, which is closed where it was the last.
    fn let_go<F: Files>(&mut self, files: &mut F, file: FileNo)
        requires counted { 0 < references self.old file }
        requires open { is_there ((F.device files.old).numbered file) ≡ true }
        ensures less { (f : ℕ) → references self.old f ≡ (if file == f then references self.new f + 1 else references self.new f) }
        ensures closed { (f : ℕ) → (F.device files.new).numbered f ≡ (if (file == f) && (references self.new f == 0) then Missing else (F.device files.old).numbered f) }
        ensures others { SameButOpen (F.device files.old) (F.device files.new) }
        ensures lists { lists self.new ≡ lists self.old }
        ensures pools { pool_of self.new ≡ pool_of self.old }
        ensures next { next_name self.new ≡ next_name self.old }
        ensures names { NoneRevived (brigade_of self.old) (brigade_of self.new) (next_name self.old) }
        ensures unasked { self.new.asked ≡ self.old.asked }
    {
        let count = self.references.get(file).unwrap_or(0);
        if count > 1 {
            self.references.set(file, count - 1);
        } else {
            self.references.remove(file);
            files.close_file(file);
        }
    }

    /// Ends what a payload names: a brigade with its buckets, or a reference.
    fn end_payload<F: Files>(&mut self, files: &mut F, payload: &Payload)
        requires counted { (f : ℕ) → is_file_ref f payload.now ≡ true → 0 < references self.old f }
        requires open { (f : ℕ) → is_file_ref f payload.now ≡ true → is_there ((F.device files.old).numbered f) ≡ true }
        ensures out { (n : ℕ) → lists self.new n ≡ (if is_brigade n payload.now then None else lists self.old n) }
        ensures off { (n : ℕ) → pool_of self.new n ≡ (if is_brigade n payload.now then None else pool_of self.old n) }
        ensures less { (f : ℕ) → references self.old f ≡ (if is_file_ref f payload.now then references self.new f + 1 else references self.new f) }
        ensures closed { (f : ℕ) → (F.device files.new).numbered f ≡ (if is_file_ref f payload.now && (references self.new f == 0) then Missing else (F.device files.old).numbered f) }
        ensures others { SameButOpen (F.device files.old) (F.device files.new) }
        ensures next { next_name self.new ≡ next_name self.old }
        ensures names { NoneRevived (brigade_of self.old) (brigade_of self.new) (next_name self.old) }
        ensures unasked { self.new.asked ≡ self.old.asked }
    {
        match payload {
            Payload::Label(_) => {}
            Payload::FileRef(file) => self.let_go(files, *file),
            Payload::Brigade(b) => self.end(*b),
        }
    }

    /// Ends the brigades and the references among what a clear of a pool handed on, and no others. A file whose last reference ends is
    /// closed. It takes no memory.
    pub fn end_pool<F: Files>(&mut self, files: &mut F, handed: &[(PoolId, Payload)])
        requires counted { (f : ℕ) → refs_in f handed.now ≤ references self.old f }
        requires open { (f : ℕ) → 0 < refs_in f handed.now → is_there ((F.device files.old).numbered f) ≡ true }
        ensures out { (n : ℕ) → lists self.new n ≡ (if list_any (λ x. is_brigade n x.1) handed.now then None else lists self.old n) }
        ensures off { (n : ℕ) → pool_of self.new n ≡ (if list_any (λ x. is_brigade n x.1) handed.now then None else pool_of self.old n) }
        ensures counted { (f : ℕ) → references self.new f + refs_in f handed.now ≡ references self.old f }
        ensures closed { (f : ℕ) → (F.device files.new).numbered f ≡ (if is_let_go (references self.old f) (refs_in f handed.now) then Missing else (F.device files.old).numbered f) }
        ensures others { SameButOpen (F.device files.old) (F.device files.new) }
        ensures next { next_name self.new ≡ next_name self.old }
        ensures names { NoneRevived (brigade_of self.old) (brigade_of self.new) (next_name self.old) }
        ensures unasked { self.new.asked ≡ self.old.asked }
    {
        for entry in handed {
            self.end_payload(files, &entry.1);
        }
    }
}
