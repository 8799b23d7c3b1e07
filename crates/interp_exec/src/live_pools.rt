//! The pools that operands and declarations name, where there is no fault.

ghost use Rattle.std.specs.Prelude.{◌≡◌, ℕ, Option, None, Some, IsTrue};
ghost use Rattle.interp_exec.specs.Prelude.{WPool, fault_want, is_live, pool_named, map_of, Items, Call, ContextView, seen_over, in_context};

use brigade_ops::{PoolId, PoolTree};
use interp_state::context::Context;
use interp_state::machine::Instance;
use interp_state::pool_names::pool_named;
use run_model::{Payload, PoolRef};

/// The live pool that an operand or a declaration names.
pub(crate) fn live_pool(
    instance: &Instance,
    tree: &PoolTree<Payload>,
    context: &Context<'_>,
    pool: PoolRef,
) -> PoolId
    requires there { (rings : ℕ → Option Items)
        × ((next : ℕ) × ((view : ContextView) × ((call : Call) × (fault_want (seen_over rings next (in_context context.now (map_of tree.now) view) instance.now call) (WPool pool) ≡ None)))) }
    ensures named { (rings : ℕ → Option Items) (next : ℕ) (view : ContextView) (call : Call)
        → pool_named (seen_over rings next (in_context context.now (map_of tree.now) view) instance.now call) pool ≡ Some result }
    ensures live { IsTrue (is_live (map_of tree.now) result) }
{
    match pool_named(instance, context, pool) {
        Some(name) => name,
        None => unreachable!(),
    }
}
