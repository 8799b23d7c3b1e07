//! The buckets of a brigade are set aside into the pool of another (ap_save_brigade).

ghost use Rattle.std.specs.Prelude.{◌≡◌, ◌≢◌, ◌<◌, ℕ, All, Some, true, false, is_some, IsTrue, IsOk, OnOk, OnErr};
ghost use Rattle.interp_exec.specs.Prelude.{Device, is_live, items_of, items_at, do_save, made_on, takes_reference, map_of, AreOpen, IsHouse, lists, pool_of, references, Call, ContextView, RangeIsOpen};
ghost use Rattle.interp_exec.specs.Prelude.{VariablesApart, AreOn, IsHeld, LeavesRest, live_in, slot_at, seen};

use brigade_ops::{Brigades, PoolTree, Rings, Stored};
use interp_state::machine::{Instance, Slot};
use run_model::Payload;
use std::alloc::AllocError;

/// Sets the buckets of a second brigade aside into the pool of a first, and moves them to its tail. Where the first is on no pool nothing
/// is changed. Only further references to files take memory. Without it nothing is changed.
#[tactic(auto, using(interp_state::proofs::Slots::made_in))]
pub(crate) fn save<R: Rings<Stored> + Drop>(
    instance: &Instance,
    tree: &mut PoolTree<Payload>,
    store: &mut Brigades<R>,
    o: u8,
    b: u8,
) -> Result<(), AllocError>
    requires first { o < 8 }
    requires second { b < 9 }
    requires apart { o ≢ b }
    requires live_into { is_some (live_in (lists store.old) (slot_at instance.now o)) ≡ true }
    requires live_from { is_some (live_in (lists store.old) (slot_at instance.now b)) ≡ true }
    requires held { VariablesApart instance.now }
    requires on { AreOn (lists store.old) (pool_of store.old) instance.now }
    requires live { (n p : ℕ) → live_in (lists store.old) (slot_at instance.now o) ≡ Some n → pool_of store.old n ≡ Some p → IsTrue (is_live (map_of tree.old) p) }
    ensures ok { OnOk result ((view : ContextView) (call : Call) → IsHeld store.old instance.now call
        → seen store.new (record view { pools = map_of tree.new }) instance.now call ≡ do_save o b (seen store.old (record view { pools = map_of tree.old }) instance.now call)) }
    ensures sure { (view : ContextView) (call : Call) → let r = seen store.old (record view { pools = map_of tree.old }) instance.now call in
        takes_reference (map_of tree.old) (made_on (r.instance.brigades o)) (items_at r b) ≡ false → IsOk result }
    ensures err { OnErr result ((view : ContextView) (call : Call)
        → seen store.new (record view { pools = map_of tree.new }) instance.now call ≡ seen store.old (record view { pools = map_of tree.old }) instance.now call) }
    ensures held { (call : Call) → IsHeld store.old instance.now call → IsHeld store.new instance.now call }
    ensures house { IsHouse store.old (map_of tree.old) → IsHouse store.new (map_of tree.new) }
    ensures left { (call : Call) → LeavesRest store.old store.new instance.now call }
    ensures open { (d : Device) (view : ContextView) (call : Call) → All (RangeIsOpen d) (items_of ((seen store.old view instance.now call).instance.brigades b))
        → AreOpen (references store.old) d → AreOpen (references store.new) d }
    ensures tree_unasked { tree.new.asked ≡ tree.old.asked }
{
    let Slot::Made(to, on, _) = instance.slot(o) else {
        unreachable!()
    };
    if on.is_none() {
        return Ok(());
    }
    let from = instance.brigade(b);
    store.save(tree, to, from)
}
