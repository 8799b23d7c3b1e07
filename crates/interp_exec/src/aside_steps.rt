//! What instructions do to a bucket that is set aside (apr_bucket_setaside).

ghost use Rattle.std.specs.Prelude.{◌≡◌, ◌<◌, Some, false, option_to_list, IsTrue, IsOk, OnOk, OnErr};
ghost use Rattle.interp_exec.specs.Prelude.{Device, IsOpenFor, content_at, do_aside, bucket_at, at_cursor, OnBucket, is_live, takes_reference, map_of, AreOpen, IsHouse, references, ContextView, IsHeld};
ghost use Rattle.interp_exec.specs.Prelude.{LeavesRest, StandsAs, seen};

use brigade_ops::{Brigades, PoolId, PoolTree, Rings, Stored};
use interp_state::machine::{Call, Instance};
use run_model::Payload;
use std::alloc::AllocError;

/// Sets the bucket of a cursor aside into a pool. Only a further reference to a file takes memory. Without it nothing is changed.
pub(crate) fn aside<R: Rings<Stored> + Drop>(
    instance: &Instance,
    call: &Call,
    tree: &mut PoolTree<Payload>,
    store: &mut Brigades<R>,
    c: u8,
    pool: PoolId,
) -> Result<(), AllocError>
    requires cursor { c < 9 }
    requires live { IsTrue (is_live (map_of tree.old) pool) }
    requires held { IsHeld store.old instance.now call.now }
    requires stands { StandsAs store.old instance.now call.now c OnBucket }
    ensures ok { OnOk result ((view : ContextView) → let r = seen store.old (record view { pools = map_of tree.old }) instance.now call.now in
        seen store.new (record view { pools = map_of tree.new }) instance.now call.now ≡ do_aside (at_cursor r c) (Some pool) r) }
    ensures sure { (view : ContextView) → let r = seen store.old (record view { pools = map_of tree.old }) instance.now call.now in
        takes_reference (map_of tree.old) (Some pool) (option_to_list (bucket_at (at_cursor r c))) ≡ false → IsOk result }
    ensures err { OnErr result ((view : ContextView)
        → seen store.new (record view { pools = map_of tree.new }) instance.now call.now ≡ seen store.old (record view { pools = map_of tree.old }) instance.now call.now) }
    ensures held { IsHeld store.new instance.now call.now }
    ensures house { IsHouse store.old (map_of tree.old) → IsHouse store.new (map_of tree.new) }
    ensures left { LeavesRest store.old store.new instance.now call.now }
    ensures open { (d : Device) (view : ContextView) → IsOpenFor d (content_at (at_cursor (seen store.old view instance.now call.now) c))
        → AreOpen (references store.old) d → AreOpen (references store.new) d }
    ensures tree_unasked { tree.new.asked ≡ tree.old.asked }
{
    store.aside(tree, call.bucket(c), pool)
}
