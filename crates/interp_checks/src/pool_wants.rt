//! The faults where a pool is not there, or is there already.

ghost use Rattle.std.specs.Prelude.{◌≡◌, ℕ, Option, slice_index_or};
ghost use Rattle.interp_checks.specs.Prelude.{has_pool, is_live_named, is_stray, any_below, is_named, is_own, Payload, Pools, map_of, Items, Call, ContextView, TreeOnlyAsked, in_context, seen_over};
ghost use Rattle.run_model.specs.State.{name_in};

use brigade_ops::{PoolId, PoolTree};
use interp_state::context::Context;
use interp_state::machine::Instance;
use interp_state::pool_names::{is_named, name_in, pool_named, variable};
use run_model::{Home, Payload, PoolRef, PoolVar};

/// Whether one of the eight pool variables names a pool.
fn any_names(instance: &Instance, name: PoolId) -> bool
    ensures { result ≡ any_below 8 (λ q. is_named (name_in (slice_index_or instance.now.pools q PoolVar.Null)) name) }
{
    for q in 0..8u8 {
        if is_named(name_in(variable(instance, q)), name) {
            return true;
        }
    }
    false
}

/// Whether there is a name and it is that of a live pool.
fn is_there(tree: &mut PoolTree<Payload>, name: Option<PoolId>) -> bool
    ensures value { result ≡ is_live_named (map_of tree.old) name }
    ensures asked { TreeOnlyAsked tree.old tree.new }
{
    match name {
        Some(name) => tree.is_live(name),
        None => false,
    }
}

/// Whether an operand names a live pool.
#[tactic(auto, unfolding(interp_state::specs::Seen::seen_over, run_model::specs::Faults::has_pool_at))]
pub(crate) fn has_pool(
    instance: &Instance,
    context: &Context<'_>,
    tree: &mut PoolTree<Payload>,
    pool: PoolRef,
) -> bool
    ensures value { (rings : ℕ → Option Items) (next : ℕ) (view : ContextView) (call : Call)
        → result ≡ has_pool (seen_over rings next (in_context context.now (map_of tree.old) view) instance.now call) pool }
    ensures asked { TreeOnlyAsked tree.old tree.new }
{
    is_there(tree, pool_named(instance, context, pool))
}

/// Whether a pool is one that a pool variable names, the connection's or the open request's.
#[tactic(auto, unfolding(interp_state::specs::Seen::seen_over, run_model::specs::State::is_own_at))]
fn is_own(instance: &Instance, context: &Context<'_>, name: PoolId) -> bool
    ensures { (rings : ℕ → Option Items) (next : ℕ) (pools : Pools Payload) (view : ContextView) (call : Call)
        → result ≡ is_own (seen_over rings next (in_context context.now pools view) instance.now call) name }
{
    any_names(instance, name) || name == context.conn || is_named(context.req, name)
}

/// Whether a home does not outlast the call, or lies in a pool of another filter.
#[tactic(auto, unfolding(run_model::specs::Faults::is_stray, run_model::specs::State::is_own_at, interp_state::specs::Seen::seen_over))]
pub(crate) fn is_stray(instance: &Instance, context: &Context<'_>, home: Home) -> bool
    ensures { (rings : ℕ → Option Items) (next : ℕ) (pools : Pools Payload) (view : ContextView) (call : Call)
        → result ≡ is_stray (seen_over rings next (in_context context.now pools view) instance.now call) home }
{
    match home {
        Home::Call(_) => true,
        Home::Pool(name) => !is_own(instance, context, name),
        Home::Free | Home::Ended => false,
    }
}
