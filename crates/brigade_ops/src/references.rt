//! References to files: registered with a pool, and counted.

ghost use Rattle.std.specs.Prelude.{◌≡◌, ◌<◌, ◌≤◌, ℕ, ◌+◌, ◌==◌, if◌then◌else◌, [], true, IsTrue, IsOk, OnOk, OnErr};
ghost use Rattle.brigade_ops.specs.Prelude.{Pools, is_live, registered, killed, payload_eq, all_referred, map_of, times_in, count_at};

use bucket_kinds::FileNo;
use name_table::NameTable;
use pool_tree::{PoolId, PoolTree};
use run_model::Payload;
use std::alloc::AllocError;

/// Registers a reference to a file with a pool, and counts it. Refused, nothing is changed.
#[tactic(auto, unfolding(crate::specs::Files::count_at, bucket_ring::specs::Lists::upd), using(crate::proofs::Undone::live_registered))]
pub(crate) fn refer(
    counts: &mut NameTable<u64>,
    tree: &mut PoolTree<Payload>,
    pool: PoolId,
    file: FileNo,
) -> Result<(), AllocError>
    requires { IsTrue (is_live (map_of tree.old) pool) }
    ensures ok { OnOk result (map_of tree.new ≡ registered pool (Payload.FileRef file) (map_of tree.old)) }
    ensures counted { OnOk result ((f : ℕ) → count_at counts.new f ≡ (if f == file then count_at counts.old f + 1 else count_at counts.old f)) }
    ensures live { IsTrue (is_live (map_of tree.new) pool) }
    ensures kept { OnErr result (map_of tree.new ≡ map_of tree.old) }
    ensures uncounted { OnErr result ((f : ℕ) → count_at counts.new f ≡ count_at counts.old f) }
    ensures tree_unasked { tree.new.asked ≡ tree.old.asked }
{
    counts.reserve(1)?;
    let count = counts.get(file).unwrap_or(0);
    let Some(more) = count.checked_add(1) else {
        return Err(AllocError);
    };
    let Ok(()) = tree.register(pool, Payload::FileRef(file)) else {
        return Err(AllocError);
    };
    counts.put(file, more);
    Ok(())
}

/// Takes out the newest reference to a file that a pool has.
#[tactic(auto, unfolding(crate::specs::Files::count_at, bucket_ring::specs::Lists::upd), using(crate::proofs::Undone::live_killed))]
fn unrefer(counts: &mut NameTable<u64>, tree: &mut PoolTree<Payload>, pool: PoolId, file: FileNo)
    requires live { IsTrue (is_live (map_of tree.old) pool) }
    requires counted { 0 < count_at counts.old file }
    ensures gone { map_of tree.new ≡ killed pool (λ other. payload_eq other (Payload.FileRef file)) (map_of tree.old) }
    ensures live { IsTrue (is_live (map_of tree.new) pool) }
    ensures less { (f : ℕ) → count_at counts.old f ≡ (if file == f then count_at counts.new f + 1 else count_at counts.new f) }
    ensures tree_unasked { tree.new.asked ≡ tree.old.asked }
{
    let _killed = tree.kill(pool, &Payload::FileRef(file));
    let count = counts.get(file).unwrap_or(0);
    if count > 1 {
        counts.set(file, count - 1);
    } else {
        counts.remove(file);
    }
}

/// Takes out the newest references to files that a pool has, the last first.
pub(crate) fn unrefer_all(
    counts: &mut NameTable<u64>,
    tree: &mut PoolTree<Payload>,
    pool: PoolId,
    files: &[FileNo],
)
    requires live { IsTrue (is_live (map_of tree.old) pool) }
    requires counted { (f : ℕ) → times_in f files.now ≤ count_at counts.old f }
    ensures gone { (ps : Pools Payload) → map_of tree.old ≡ all_referred pool files.now ps → map_of tree.new ≡ ps }
    ensures less { (f : ℕ) → count_at counts.old f ≡ count_at counts.new f + times_in f files.now }
    ensures tree_unasked { tree.new.asked ≡ tree.old.asked }
{
    for index in (0..files.len()).rev() {
        let file = files[index];
        unrefer(counts, tree, pool, file);
    }
}

/// Registers a reference to each of these files with a pool, and counts them. Of none it takes no memory. Refused, nothing is changed.
pub(crate) fn refer_all(
    counts: &mut NameTable<u64>,
    tree: &mut PoolTree<Payload>,
    pool: PoolId,
    files: &[FileNo],
) -> Result<(), AllocError>
    requires { IsTrue (is_live (map_of tree.old) pool) }
    ensures ok { OnOk result (map_of tree.new ≡ all_referred pool files.now (map_of tree.old)) }
    ensures counted { OnOk result ((f : ℕ) → count_at counts.new f ≡ count_at counts.old f + times_in f files.now) }
    ensures live { IsTrue (is_live (map_of tree.new) pool) }
    ensures sure { files.now ≡ [] → IsOk result }
    ensures kept { OnErr result (map_of tree.new ≡ map_of tree.old) }
    ensures uncounted { OnErr result ((f : ℕ) → count_at counts.new f ≡ count_at counts.old f) }
    ensures tree_unasked { tree.new.asked ≡ tree.old.asked }
{
    for index in 0..files.len() {
        let file = files[index];
        if refer(counts, tree, pool, file).is_err() {
            unrefer_all(counts, tree, pool, &files[..index]);
            return Err(AllocError);
        }
    }
    Ok(())
}
