//! Pool variables, and the pools that operands name.

ghost use Rattle.std.specs.Prelude.{◌≡◌, ℕ, Option, slice_index_or};
ghost use Rattle.interp_state.specs.Prelude.{name_in, is_named, pool_named, Items, Payload, Pools, ContextView, in_context, seen_over};
ghost use Rattle.interp_state.specs.declared.machine.Call.{Call};

use crate::context::Context;
use crate::machine::Instance;
use brigade_ops::PoolId;
use run_model::{PoolRef, PoolVar};

/// The pool variable of a number; beyond the last they are null.
pub fn variable(instance: &Instance, q: u8) -> PoolVar
    ensures { result ≡ slice_index_or instance.now.pools q PoolVar.Null }
{
    match instance.pools.get(usize::from(q)) {
        Some(var) => *var,
        None => PoolVar::Null,
    }
}

/// The pool that a pool variable names.
pub fn name_in(var: PoolVar) -> Option<PoolId>
    ensures { result ≡ name_in var }
{
    match var {
        PoolVar::Null => None,
        PoolVar::Made(name) => Some(name),
    }
}

/// Whether there is a name and it is this one.
pub fn is_named(held: Option<PoolId>, name: PoolId) -> bool
    ensures { result ≡ is_named held name }
{
    match held {
        Some(other) => name == other,
        None => false,
    }
}

/// The pool that an operand or a declaration names.
#[tactic(auto, unfolding(crate::specs::Seen::seen_over, run_model::specs::State::named_at))]
pub fn pool_named(instance: &Instance, context: &Context<'_>, pool: PoolRef) -> Option<PoolId>
    ensures { (pools : Pools Payload) (rings : ℕ → Option Items) (next : ℕ) (view : ContextView) (call : Call)
        → result ≡ pool_named (seen_over rings next (in_context context.now pools view) instance.now call) pool }
{
    match pool {
        PoolRef::Conn => Some(context.conn),
        PoolRef::Req => context.req,
        PoolRef::Own(q) => name_in(variable(instance, q)),
    }
}
