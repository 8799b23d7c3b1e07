//! What makes a brigade (apr_brigade_create).

ghost use Rattle.std.specs.Prelude.{◌≡◌, ◌<◌, Some, IsTrue, OnOk, OnErr};
ghost use Rattle.interp_exec.specs.Prelude.{Program, pool_of_brigade, is_live, pool_named, do_create, map_of, IsHouse, next_name, references, Call, ContextView, KeepNames, IsHeld, LeavesRest, seen};

use brigade_ops::{Brigades, PoolId, PoolTree, Rings, Stored};
use interp_state::machine::{Instance, Slot};
use run_model::{Mark, Payload};
use std::alloc::AllocError;

/// Makes an empty brigade on its declared pool, where it is registered. What was in the variable is in no variable then. Without
/// memory, and where the names are spent, nothing is changed.
pub(crate) fn create<R: Rings<Stored> + Drop>(
    instance: &mut Instance,
    tree: &mut PoolTree<Payload>,
    store: &mut Brigades<R>,
    o: u8,
    pool: PoolId,
) -> Result<(), AllocError>
    requires slot { o < 8 }
    requires live { IsTrue (is_live (map_of tree.old) pool) }
    ensures ok { OnOk result ((code : Program) (view : ContextView) (call : Call) → IsHeld store.old instance.old call
        → let r = seen store.old (record view { pools = map_of tree.old }) instance.old call in pool_named r (pool_of_brigade code o) ≡ Some pool
        → seen store.new (record view { pools = map_of tree.new }) instance.new call ≡ do_create code o r) }
    ensures err { OnErr result ((view : ContextView) (call : Call)
        → seen store.new (record view { pools = map_of tree.new }) instance.new call ≡ seen store.old (record view { pools = map_of tree.old }) instance.old call) }
    ensures held { (call : Call) → IsHeld store.old instance.old call → IsHeld store.new instance.new call }
    ensures house { IsHouse store.old (map_of tree.old) → IsHouse store.new (map_of tree.new) }
    ensures left { (call : Call) → LeavesRest store.old store.new instance.old call }
    ensures references { references store.new ≡ references store.old }
    ensures slots { KeepNames (next_name store.old) (next_name store.new) instance.old instance.new }
    ensures tree_unasked { tree.new.asked ≡ tree.old.asked }
{
    let Ok(name) = store.create(tree, pool) else {
        return Err(AllocError);
    };
    instance.set_slot(o, Slot::Made(name, Some(pool), Mark::Usable));
    Ok(())
}
