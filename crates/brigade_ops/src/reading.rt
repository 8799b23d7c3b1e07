//! A bucket of the store is read.

ghost use Rattle.std.specs.Prelude.{◌≡◌, ◌≢◌, ◌⊎◌, ◌&&◌, ℕ, ◌+◌, ◌<◌, List, [], ◌∷◌, length, Ok, Some, None, Err, true, is_some, is_ok, if◌then◌else◌, IfOk, IfSome, OnOk, OnErr};
ghost use Rattle.brigade_ops.specs.Prelude.{on, with_payload, NoneRevived, EndsInFile, wanted, read_of, Kept, WentWell, HasFailed, WasAsked, IsOpenFor, GivesFor, EndsWithin, replaced, rest_item};
ghost use Rattle.brigade_ops.specs.Prelude.{range_in, IsAskedFor, IsBucketRead, lies_right};

use crate::store::Brigades;
use bucket_kinds::{Files, ReadFault, Stored, keep_own, read_into, rest_of_read, room_to_read};
use bucket_ring::{BucketId, Rings};
use bucket_store::{ContentView, ReadRefusal};
use run_model::{Bucket, Content, Seq};

#[tactic(auto, unfolding(crate::specs::Store::lists, crate::specs::Store::brigade_of, crate::specs::Store::pool_of, crate::specs::Store::next_name, crate::specs::Store::references, crate::specs::Store::has_room))]
impl<R: Rings<Stored> + Drop> Brigades<R> {
    ghost use Rattle.brigade_ops.specs.Store.{lists, brigade_of, bucket_at, pool_of, next_name, references, has_room};

    /// A bucket that is a range of a file.
    fn range_at(&self, id: BucketId) -> Option<Bucket>
        requires { is_some (brigade_of self.now id) ≡ true }
        ensures here { IfSome result (λ bucket. bucket_at self.now id ≡ Some bucket) }
        ensures range { (x : Bucket) → bucket_at self.now id ≡ Some x → result ≡ range_in x }
        ensures lies { IfSome result (λ bucket. lies_right bucket.kind (Kept.Own bucket.content) ≡ true) }
    {
        let bucket = self.payload(id);
        let ContentView::Range { file, start, len } = bucket.content else {
            return None;
        };
        let content = Content::Range { file, start, len };
        Some(Bucket {
            kind: bucket.kind,
            content,
            home: bucket.home,
        })
    }

    /// Reads a bucket of which a read leaves nothing.
    fn read_whole<F: Files>(
        &mut self,
        files: &mut F,
        id: BucketId,
        mut bucket: Bucket,
        room: Seq<u8>,
    ) -> Result<(), ReadFault>
        requires there { is_some (brigade_of self.old id) ≡ true }
        requires lies { lies_right bucket.kind (Kept.Own bucket.content) ≡ true }
        requires ends { EndsInFile bucket.content }
        requires open { IsOpenFor (F.device files.old) bucket.content }
        requires room { length room ≡ wanted bucket.content }
        ensures ok { OnOk result ((b : ℕ) → brigade_of self.old id ≡ Some b → (bytes : List ℕ) × GivesFor (F.device files.old) bucket.content bytes
            × ((m : ℕ) → lists self.new m ≡ on b (with_payload id (read_of bytes bucket).0) (lists self.old) m)) }
        ensures next { next_name self.new ≡ next_name self.old }
        ensures names { NoneRevived (brigade_of self.old) (brigade_of self.new) (next_name self.old) }
        ensures pools { pool_of self.new ≡ pool_of self.old }
        ensures references { references self.new ≡ references self.old }
        ensures unread { wanted bucket.content ≡ 0 → (result ≡ Ok tt) × (F.device files.new ≡ F.device files.old) }
        ensures device { IsAskedFor bucket.content (F.device files.old) (F.device files.new) result }
        ensures err { OnErr result ((m : ℕ) → lists self.new m ≡ lists self.old m) }
        ensures unasked { self.new.asked ≡ self.old.asked }
    {
        let _rest = read_into(&mut bucket, room, files)?;
        self.set_own(id, bucket);
        Ok(())
    }

    /// Reads a bucket of which a read leaves this rest. A name and room for it are there.
    fn read_front<F: Files>(
        &mut self,
        files: &mut F,
        id: BucketId,
        mut bucket: Bucket,
        room: Seq<u8>,
        rest: Bucket,
    ) -> Result<BucketId, ReadFault>
        requires there { is_some (brigade_of self.old id) ≡ true }
        requires lies { lies_right bucket.kind (Kept.Own bucket.content) ≡ true }
        requires ends { EndsInFile bucket.content }
        requires open { IsOpenFor (F.device files.old) bucket.content }
        requires room { length room ≡ wanted bucket.content }
        requires long { wanted bucket.content ≢ 0 }
        requires rest { lies_right rest.kind (Kept.Own rest.content) ≡ true }
        requires unspent { next_name self.old < u64.MAX }
        requires room_for_rest { has_room self.old }
        ensures ok { IfOk result (λ new. (b : ℕ) → brigade_of self.old id ≡ Some b → (bytes : List ℕ) × GivesFor (F.device files.old) bucket.content bytes
            × ((m : ℕ) → lists self.new m ≡ on b (replaced id (read_of bytes bucket).0 ((new, rest) ∷ [])) (lists self.old) m)) }
        ensures name { IfOk result (λ new. new.birth ≡ next_name self.old) }
        ensures next { next_name self.new ≡ (if is_ok result then next_name self.old + 1 else next_name self.old) }
        ensures names { NoneRevived (brigade_of self.old) (brigade_of self.new) (next_name self.old) }
        ensures pools { pool_of self.new ≡ pool_of self.old }
        ensures references { references self.new ≡ references self.old }
        ensures device { IsAskedFor bucket.content (F.device files.old) (F.device files.new) result }
        ensures err { OnErr result ((m : ℕ) → lists self.new m ≡ lists self.old m) }
        ensures unasked { self.new.asked ≡ self.old.asked }
    {
        let _rest = read_into(&mut bucket, room, files)?;
        let new = self.put_behind(id, keep_own(rest));
        self.set_own(id, bucket);
        Ok(new)
    }

    /// Reads a bucket that is a range of a file. A name and room for what a read leaves of it are got before the file is asked.
    #[tactic(auto)]
    fn read_range<F: Files>(
        &mut self,
        files: &mut F,
        id: BucketId,
        bucket: Bucket,
    ) -> Result<Option<BucketId>, ReadRefusal>
        requires there { is_some (brigade_of self.old id) ≡ true }
        requires lies { lies_right bucket.kind (Kept.Own bucket.content) ≡ true }
        requires ends { EndsInFile bucket.content }
        requires open { IsOpenFor (F.device files.old) bucket.content }
        ensures ok { IfOk result (λ rest. (b : ℕ) → brigade_of self.old id ≡ Some b → (bytes : List ℕ) × GivesFor (F.device files.old) bucket.content bytes
            × ((m : ℕ) → lists self.new m ≡ on b (replaced id (read_of bytes bucket).0 (rest_item rest (read_of bytes bucket).1)) (lists self.old) m)) }
        ensures rest { IfOk result (λ rest. is_some rest ≡ is_some (read_of [] bucket).1) }
        ensures name { IfOk result (λ rest. IfSome rest (λ new. new.birth ≡ next_name self.old)) }
        ensures next { next_name self.new ≡ (if is_ok result && is_some (read_of [] bucket).1 then next_name self.old + 1 else next_name self.old) }
        ensures names { NoneRevived (brigade_of self.old) (brigade_of self.new) (next_name self.old) }
        ensures pools { pool_of self.new ≡ pool_of self.old }
        ensures references { references self.new ≡ references self.old }
        ensures unread { wanted bucket.content ≡ 0 → (result ≡ Ok None) × (F.device files.new ≡ F.device files.old) }
        ensures asked { OnOk result (WasAsked (wanted bucket.content) (F.device files.old) (F.device files.new)) }
        ensures fault { result ≡ Err ReadRefusal.ReadFault
            → HasFailed (F.device files.old) (F.device files.new)
            ⊎ (WentWell (F.device files.old) (F.device files.new) × EndsWithin (F.device files.old) bucket.content) }
        ensures no_memory { result ≡ Err ReadRefusal.NoMemory → F.device files.new ≡ F.device files.old }
        ensures unspent { result ≡ Err ReadRefusal.NamesSpent → (next_name self.old ≡ u64.MAX) × (F.device files.new ≡ F.device files.old) }
        ensures open_files { (F.device files.new).numbered ≡ (F.device files.old).numbered }
        ensures err { OnErr result ((m : ℕ) → lists self.new m ≡ lists self.old m) }
        ensures unasked { self.new.asked ≡ self.old.asked }
    {
        let room = room_to_read(self.alloc, &bucket)?;
        let Some(rest) = rest_of_read(&bucket) else {
            return match self.read_whole(files, id, bucket, room) {
                Ok(()) => Ok(None),
                Err(_) => Err(ReadRefusal::ReadFault),
            };
        };
        self.room_for(rest.kind, rest.home)?;
        match self.read_front(files, id, bucket, room, rest) {
            Ok(new) => Ok(Some(new)),
            Err(_) => Err(ReadRefusal::ReadFault),
        }
    }

    /// Reads a bucket (`apr_bucket_read`), as `read_bucket` does. The rest of a longer FILE bucket stands behind it under the name that
    /// is answered. Refused, nothing is changed, and no name is spent.
    pub fn read<F: Files>(
        &mut self,
        files: &mut F,
        id: BucketId,
    ) -> Result<Option<BucketId>, ReadRefusal>
        requires there { is_some (brigade_of self.old id) ≡ true }
        requires ends { (x : Bucket) → bucket_at self.old id ≡ Some x → EndsInFile x.content }
        requires open { (x : Bucket) → bucket_at self.old id ≡ Some x → IsOpenFor (F.device files.old) x.content }
        ensures read { (x : Bucket) → bucket_at self.old id ≡ Some x
            → IsBucketRead id x (brigade_of self.old id) (F.device files.old) (F.device files.new) (lists self.old) (lists self.new) (next_name self.old) (next_name self.new) result }
        ensures names { NoneRevived (brigade_of self.old) (brigade_of self.new) (next_name self.old) }
        ensures name { IfOk result (λ rest. IfSome rest (λ new. new.birth ≡ next_name self.old)) }
        ensures pools { pool_of self.new ≡ pool_of self.old }
        ensures references { references self.new ≡ references self.old }
        ensures no_memory { result ≡ Err ReadRefusal.NoMemory → F.device files.new ≡ F.device files.old }
        ensures unspent { result ≡ Err ReadRefusal.NamesSpent → (next_name self.old ≡ u64.MAX) × (F.device files.new ≡ F.device files.old) }
        ensures open_files { (F.device files.new).numbered ≡ (F.device files.old).numbered }
        ensures err { OnErr result ((m : ℕ) → lists self.new m ≡ lists self.old m) }
        ensures unasked { self.new.asked ≡ self.old.asked }
    {
        match self.range_at(id) {
            Some(bucket) => self.read_range(files, id, bucket),
            None => Ok(None),
        }
    }
}
