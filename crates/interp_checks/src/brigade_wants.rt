//! What instructions want of all buckets of a brigade: homes that are not dead, no data behind an EOS, nothing that does not outlast
//! the call.

ghost use Rattle.std.specs.Prelude.{◌≡◌, ◌<◌, true, is_some, IfSome};
ghost use Rattle.interp_checks.specs.Prelude.{Payload, Pools, WHomes, WHomeAcross, WSend, WReturn, fault_want, homes_fault, send_fault, keeps_stray, lists, Call, ContextView, contents, OnlyAsked};
ghost use Rattle.interp_checks.specs.Prelude.{in_context, seen, is_running, live_in};

use crate::home_walks::{has_late_data, has_unfit};
use crate::home_wants::home_fault;
use brigade_ops::{BrigadeId, Brigades, Rings, Stored};
use interp_state::across::bucket_across;
use interp_state::context::Context;
use interp_state::machine::{Call, Instance, Slot};
use interp_state::values::value_of;
use run_model::{FaultKind, Mark, Value};

/// The brigade that a slot names, where it is there.
#[tactic(auto, using(crate::proofs::OnlyAsked::asks_once))]
fn live<R: Rings<Stored> + Drop>(store: &mut Brigades<R>, slot: Slot) -> Option<BrigadeId>
    ensures value { result ≡ live_in (lists store.old) slot }
    ensures there { IfSome result (λ n. is_some (lists store.new n) ≡ true) }
    ensures asked { OnlyAsked store.old store.new }
{
    let Slot::Made(name, _, _) = slot else {
        return None;
    };
    if store.has(name) { Some(name) } else { None }
}

/// The fault of a brigade in which some bucket's home is dead.
#[tactic(auto, using(interp_state::proofs::Contents::homes_told))]
pub(crate) fn want_homes<R: Rings<Stored> + Drop>(
    instance: &Instance,
    call: &Call,
    context: &Context<'_>,
    store: &mut Brigades<R>,
    b: u8,
) -> Option<FaultKind>
    requires { b < 9 }
    ensures value { (pools : Pools Payload) (view : ContextView) → result ≡ fault_want (seen store.old (in_context context.now pools view) instance.now call.now) (WHomes b) }
    ensures asked { OnlyAsked store.old store.new }
{
    let Some(name) = live(store, instance.slot(b)) else {
        return None;
    };
    let dead = has_unfit(instance, call, context, store, name, false);
    dead.then_some(FaultKind::F5)
}

/// The fault of a brigade in which the bucket that a point lies inside has a home that is dead.
#[tactic(auto, using(interp_state::proofs::Contents::across_told, interp_state::proofs::Contents::none_across, crate::proofs::OnlyAsked::lists_same, crate::proofs::OnlyAsked::buckets_same))]
pub(crate) fn want_home_across<R: Rings<Stored> + Drop>(
    instance: &Instance,
    call: &Call,
    context: &Context<'_>,
    store: &mut Brigades<R>,
    b: u8,
    point: Value,
) -> Option<FaultKind>
    requires { b < 9 }
    ensures value { (pools : Pools Payload) (view : ContextView) → result ≡ fault_want (seen store.old (in_context context.now pools view) instance.now call.now) (WHomeAcross b point) }
    ensures asked { OnlyAsked store.old store.new }
{
    let Some(name) = live(store, instance.slot(b)) else {
        return None;
    };
    let across = bucket_across(store, name, u64::from(value_of(instance, point)));
    home_fault(call, context, store, across)
}

/// The fault of a brigade that may not be sent on: data stands behind an EOS of its own, or of the request.
#[tactic(auto, using(interp_state::proofs::Contents::send_told))]
pub(crate) fn want_send<R: Rings<Stored> + Drop>(
    instance: &Instance,
    store: &mut Brigades<R>,
    b: u8,
) -> Option<FaultKind>
    requires { b < 9 }
    ensures value { (view : ContextView) (call : Call) → result ≡ fault_want (seen store.old view instance.now call) (WSend b) }
    ensures asked { OnlyAsked store.old store.new }
{
    let Some(name) = live(store, instance.slot(b)) else {
        return None;
    };
    has_late_data(store, name, instance.sent).then_some(FaultKind::F8)
}

/// Whether a variable is a usable brigade with a bucket that does not outlast the call.
#[tactic(auto, using(crate::proofs::OnlyAsked::asks_once))]
fn keeps_stray<R: Rings<Stored> + Drop>(
    instance: &Instance,
    call: &Call,
    context: &Context<'_>,
    store: &mut Brigades<R>,
    b: u8,
) -> bool
    requires { b < 9 }
    ensures value { (pools : Pools Payload) (view : ContextView)
        → let r = seen store.old (in_context context.now pools view) instance.now call.now in result ≡ keeps_stray r (r.instance.brigades b) }
    ensures asked { OnlyAsked store.old store.new }
{
    let Slot::Made(name, _, mark) = instance.slot(b) else {
        return false;
    };
    match mark {
        Mark::Usable => { store.has(name) && has_unfit(instance, call, context, store, name, true) }
        Mark::Passed => false,
    }
}

/// The fault of a return that keeps a bucket which does not outlast the call.
#[tactic(auto, using(crate::proofs::OnlyAsked::asked_again))]
pub(crate) fn want_return<R: Rings<Stored> + Drop>(
    instance: &Instance,
    call: &Call,
    context: &Context<'_>,
    store: &mut Brigades<R>,
) -> Option<FaultKind>
    ensures value { (pools : Pools Payload) (view : ContextView) → result ≡ fault_want (seen store.old (in_context context.now pools view) instance.now call.now) WReturn }
    ensures asked { OnlyAsked store.old store.new }
{
    for b in 0..8u8 {
        if keeps_stray(instance, call, context, store, b) {
            return Some(FaultKind::F6);
        }
    }
    None
}
