//! The faults of an instruction.

ghost use Rattle.std.specs.Prelude.{◌≡◌, ◌≤◌, true, length};
ghost use Rattle.interp_checks.specs.Prelude.{fits, fault, fault_want, IsInRange, want_of, map_of, ContextView, IsHeld, OnlyAsked, TreeOnlyAsked, seen, in_context};

use crate::brigade_wants::{want_home_across, want_homes, want_return, want_send};
use crate::faults::{brigade_fault, mark_of, new_fault, usable_fault};
use crate::home_wants::want_home;
use crate::needs::want_cursor;
use crate::pool_wants::has_pool;
use brigade_ops::{Brigades, PoolTree, Rings, Stored};
use interp_state::context::Context;
use interp_state::machine::{Call, Instance};
use run_model::{FaultKind, Instr, Module, Payload, PoolRef, Want, wants};

/// The fault of a want, if it is not so.
#[inline(always)]
fn fault_of<R: Rings<Stored> + Drop>(
    instance: &Instance,
    call: &Call,
    context: &Context<'_>,
    tree: &mut PoolTree<Payload>,
    store: &mut Brigades<R>,
    want: Want,
) -> Option<FaultKind>
    requires range { IsInRange want }
    requires held { IsHeld store.old instance.now call.now }
    ensures value { (view : ContextView) → result ≡ fault_want (seen store.old (in_context context.now (map_of tree.old) view) instance.now call.now) (want_of want) }
    ensures tree_asked { TreeOnlyAsked tree.old tree.new }
    ensures asked { OnlyAsked store.old store.new }
{
    match want {
        Want::Pool(pool) => (!has_pool(instance, context, tree, pool)).then_some(FaultKind::F1),
        Want::Brigade(b) => brigade_fault(mark_of(instance, store, b)),
        Want::Usable(b) => usable_fault(mark_of(instance, store, b)),
        Want::New(b) => new_fault(mark_of(instance, store, b)),
        Want::NewPool(q) => {
            has_pool(instance, context, tree, PoolRef::Own(q)).then_some(FaultKind::F10)
        }
        Want::Cursor(c, need) => want_cursor(instance, call, store, c, need),
        Want::Homes(b) => want_homes(instance, call, context, store, b),
        Want::Home(c) => want_home(instance, call, context, store, c),
        Want::HomeAcross(b, point) => want_home_across(instance, call, context, store, b, point),
        Want::Send(b) => want_send(instance, store, b),
        Want::Return => want_return(instance, call, context, store),
    }
}

/// The fault of an instruction, if it has one: the first of what it wants that is not so.
#[tactic(auto, using(crate::proofs::OnlyAsked::asked_nothing, crate::proofs::OnlyAsked::tree_asked_nothing))]
pub fn fault<R: Rings<Stored> + Drop>(
    code: &Module,
    instance: &Instance,
    call: &Call,
    context: &Context<'_>,
    tree: &mut PoolTree<Payload>,
    store: &mut Brigades<R>,
    instr: Instr,
) -> Option<FaultKind>
    requires fit { fits code.now instr ≡ true }
    requires few { length code.now.brigades ≤ 8 }
    requires held { IsHeld store.old instance.now call.now }
    ensures value { (view : ContextView) → result ≡ fault code.now (seen store.old (in_context context.now (map_of tree.old) view) instance.now call.now) instr }
    ensures tree_asked { TreeOnlyAsked tree.old tree.new }
    ensures asked { OnlyAsked store.old store.new }
{
    let wanted = wants(code, instr);
    let Some(first) = wanted.first else {
        return None;
    };
    if let Some(kind) = fault_of(instance, call, context, tree, store, first) {
        return Some(kind);
    }
    let Some(second) = wanted.second else {
        return None;
    };
    if let Some(kind) = fault_of(instance, call, context, tree, store, second) {
        return Some(kind);
    }
    match wanted.third {
        Some(third) => fault_of(instance, call, context, tree, store, third),
        None => None,
    }
}
