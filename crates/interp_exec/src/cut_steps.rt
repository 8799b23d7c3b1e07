//! What instructions do to brigades that are walked (apr_buckets.h).

ghost use Rattle.std.specs.Prelude.{◌≡◌, ◌<◌, ℕ, true, is_some, Some};
ghost use Rattle.interp_exec.specs.Prelude.{BucketId, list_at, first_place, next_place, cursor_at, do_first, do_next, items_at};
ghost use Rattle.interp_exec.specs.Prelude.{at_cursor, InBrigade, lists, brigade_of, Call, ContextView, IsHeld, WasGiven};
ghost use Rattle.interp_exec.specs.Prelude.{StandsAs, live_in, name_in, slot_at, seen, seen_over, shown_cursor};

use brigade_ops::{Brigades, BucketId, Rings, Stored};
use interp_state::machine::{Call, CursorValue, Instance};

/// The first place of a brigade: its first bucket or its end.
#[tactic(auto, using(interp_state::proofs::Slots::made_in))]
fn first_cursor_value<R: Rings<Stored> + Drop>(
    instance: &Instance,
    store: &Brigades<R>,
    b: u8,
) -> CursorValue
    requires slot { b < 9 }
    requires live { is_some (live_in (lists store.now) (slot_at instance.now b)) ≡ true }
    ensures place { (view : ContextView) (call : Call) → let r = seen store.now view instance.now call in shown_cursor result ≡ cursor_at (r.instance.brigades b) (first_place (items_at r b)) }
    ensures given { (id : BucketId) → result ≡ CursorValue.At id → WasGiven store.now id }
{
    let name = instance.brigade(b);
    match store.first(name) {
        Some(id) => CursorValue::At(id),
        None => CursorValue::End(name),
    }
}

/// The cursor is at the first bucket of a brigade, or at its end.
pub(crate) fn first<R: Rings<Stored> + Drop>(
    instance: &Instance,
    call: &mut Call,
    store: &Brigades<R>,
    c: u8,
    b: u8,
)
    requires cursor { c < 9 }
    requires slot { b < 9 }
    requires live { is_some (live_in (lists store.now) (slot_at instance.now b)) ≡ true }
    requires held { IsHeld store.now instance.now call.old }
    ensures new { (view : ContextView) → seen store.now view instance.now call.new ≡ do_first c b (seen store.now view instance.now call.old) }
    ensures held { IsHeld store.now instance.now call.new }
    ensures name { call.new.name ≡ call.old.name }
{
    let cursor_value = first_cursor_value(instance, store, b);
    call.set_cursor(c, cursor_value);
}

/// The place behind a bucket: the next bucket, or the end of its brigade.
fn cursor_value_after<R: Rings<Stored> + Drop>(store: &Brigades<R>, id: BucketId) -> CursorValue
    requires { is_some (brigade_of store.now id) ≡ true }
    ensures place { (view : ContextView) (i : Instance) (call : Call) (b n : ℕ) → name_in (slot_at i b) ≡ Some n → brigade_of store.now id ≡ Some n
        → let r = seen store.now view i call in shown_cursor result ≡ cursor_at (r.instance.brigades b) (next_place id.birth (items_at r b)) }
    ensures given { (j : BucketId) → result ≡ CursorValue.At j → WasGiven store.now j }
{
    match store.next(id) {
        Ok(next) => CursorValue::At(next),
        Err(name) => CursorValue::End(name),
    }
}

/// The cursor `d` is at the bucket behind that of `c`, or at the end of its brigade.
pub(crate) fn next<R: Rings<Stored> + Drop>(
    instance: &Instance,
    call: &mut Call,
    store: &Brigades<R>,
    d: u8,
    c: u8,
)
    requires set { d < 9 }
    requires cursor { c < 9 }
    requires held { IsHeld store.now instance.now call.old }
    requires stands { StandsAs store.now instance.now call.old c InBrigade }
    ensures new { (view : ContextView) → let r = seen store.now view instance.now call.old in seen store.now view instance.now call.new ≡ do_next d (at_cursor r c) r }
    ensures held { IsHeld store.now instance.now call.new }
    ensures name { call.new.name ≡ call.old.name }
{
    let cursor_value = cursor_value_after(store, call.bucket(c));
    call.set_cursor(d, cursor_value);
}
