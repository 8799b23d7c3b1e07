//! The homes of buckets as they read while calls run, and the faults of those that are dead.

ghost use Rattle.std.specs.Prelude.{◌≡◌, ◌==◌, ◌<◌, true, is_some, Some, IfSome};
ghost use Rattle.std.specs.List.{list_any};
ghost use Rattle.interp_checks.specs.Prelude.{BucketId, Payload, Pools, Bucket, is_ended, at_cursor, WHome, fault_want};
ghost use Rattle.interp_checks.specs.Prelude.{home_fault, brigade_of, bucket_at, ContextView, IsHeld, OnlyAsked, in_context, seen};
ghost use Rattle.interp_checks.specs.Prelude.{calls_in, home_in, is_running, shown_at};
ghost use Rattle.run_model.specs.Cursors.{bucket_at as model_bucket_at};

use crate::places::place_of;
use brigade_ops::{BrigadeId, Brigades, BucketId, Rings, Stored};
use interp_state::context::Context;
use interp_state::cursors::CursorPlace;
use interp_state::machine::{Call, Instance};
use run_model::{FaultKind, Home};

/// Whether a name is one of these.
fn is_among(names: &[BrigadeId], n: BrigadeId) -> bool
    ensures { result ≡ list_any (λ w. n == w) names.now }
{
    names.iter().any(|w| n == *w)
}

/// Whether a call runs: this one, or one that waits.
#[tactic(auto, using(interp_state::proofs::Running::running_none, interp_state::proofs::Running::running_here, interp_state::proofs::Running::running_waits))]
fn is_running(call: &Call, context: &Context<'_>, n: BrigadeId) -> bool
    ensures { result ≡ is_running call.now.name context.now.waits.now n }
{
    if n == 0 {
        return false;
    }
    n == call.name || is_among(context.waits, n)
}

/// The home of a bucket of this birth.
pub(crate) fn home_in(call: &Call, context: &Context<'_>, birth: u64, home: Home) -> Home
    ensures { result ≡ home_in (is_running call.now.name context.now.waits.now) birth home }
{
    match home {
        Home::Call(n) => {
            if is_running(call, context, n) && n < birth {
                home
            } else {
                Home::Ended
            }
        }
        Home::Free | Home::Pool(_) | Home::Ended => home,
    }
}

/// The home of a bucket.
pub(crate) fn home_of<R: Rings<Stored> + Drop>(
    call: &Call,
    context: &Context<'_>,
    store: &Brigades<R>,
    id: BucketId,
) -> Home
    requires { is_some (brigade_of store.now id) ≡ true }
    ensures { (x : Bucket) → bucket_at store.now id ≡ Some x → result ≡ home_in (is_running call.now.name context.now.waits.now) id.birth x.home }
{
    home_in(call, context, id.birth, store.payload(id).home)
}

/// Whether it is a dead home.
pub(crate) fn is_ended(home: Home) -> bool
    ensures { result ≡ is_ended home }
{
    matches!(home, Home::Ended)
}

/// The bucket that a cursor stands at.
pub(crate) fn bucket_of<R: Rings<Stored> + Drop>(
    instance: &Instance,
    call: &Call,
    store: &mut Brigades<R>,
    c: u8,
) -> Option<BucketId>
    requires cursor { c < 9 }
    requires held { IsHeld store.old instance.now call.now }
    ensures at { (view : ContextView) → shown_at (calls_in view call.now) (bucket_at store.new) result ≡ model_bucket_at (at_cursor (seen store.old view instance.now call.now) c) }
    ensures there { IfSome result (λ id. is_some (brigade_of store.new id) ≡ true) }
    ensures asked { OnlyAsked store.old store.new }
{
    match place_of(instance, call, store, c) {
        CursorPlace::Within(_, id) => Some(id),
        CursorPlace::Loose(id) => Some(id),
        CursorPlace::Nowhere | CursorPlace::End(_) => None,
    }
}

/// The fault of a bucket whose home is dead.
pub(crate) fn home_fault<R: Rings<Stored> + Drop>(
    call: &Call,
    context: &Context<'_>,
    store: &Brigades<R>,
    bucket: Option<BucketId>,
) -> Option<FaultKind>
    requires { IfSome bucket (λ id. is_some (brigade_of store.now id) ≡ true) }
    ensures { result ≡ home_fault (shown_at (is_running call.now.name context.now.waits.now) (bucket_at store.now) bucket) }
{
    let Some(id) = bucket else {
        return None;
    };
    is_ended(home_of(call, context, store, id)).then_some(FaultKind::F5)
}

/// The fault of a cursor at a bucket whose home is dead.
pub(crate) fn want_home<R: Rings<Stored> + Drop>(
    instance: &Instance,
    call: &Call,
    context: &Context<'_>,
    store: &mut Brigades<R>,
    c: u8,
) -> Option<FaultKind>
    requires cursor { c < 9 }
    requires held { IsHeld store.old instance.now call.now }
    ensures value { (pools : Pools Payload) (view : ContextView) → result ≡ fault_want (seen store.old (in_context context.now pools view) instance.now call.now) (WHome c) }
    ensures asked { OnlyAsked store.old store.new }
{
    let bucket = bucket_of(instance, call, store, c);
    home_fault(call, context, store, bucket)
}
