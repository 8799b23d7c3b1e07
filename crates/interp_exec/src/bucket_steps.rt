//! What instructions do to buckets: they are taken out, put in and destroyed (apr_buckets.h).

ghost use Rattle.std.specs.Prelude.{◌≡◌, ◌<◌, ℕ, Some, is_some, true};
ghost use Rattle.interp_exec.specs.Prelude.{NoneRevived, found, list_at, on, without, do_before, do_delete, do_unlink};
ghost use Rattle.interp_exec.specs.Prelude.{put_into, at_cursor, InBrigade, OnBucket, OnLoose, put_at, Bucket, lists, brigade_of};
ghost use Rattle.interp_exec.specs.Prelude.{pool_of, references, next_name, put_item, ContextView, IsHeld, LeavesForeign, StandsAs, seen, live_in, slot_at};

use brigade_ops::{BrigadeId, Brigades, BucketId, Rings, Stored};
use interp_state::machine::{Call, Instance};
use run_model::Side;

/// Takes the bucket of a cursor out of its brigade; it is loose then. It takes no memory.
pub(crate) fn unlink<R: Rings<Stored> + Drop>(
    instance: &Instance,
    call: &Call,
    store: &mut Brigades<R>,
    c: u8,
)
    requires cursor { c < 9 }
    requires held { IsHeld store.old instance.now call.now }
    requires runs { 0 < call.now.name }
    requires stands { StandsAs store.old instance.now call.now c InBrigade }
    ensures new { (view : ContextView) → let r = seen store.old view instance.now call.now in seen store.new view instance.now call.now ≡ do_unlink (at_cursor r c) r }
    ensures held { IsHeld store.new instance.now call.now }
    ensures left { LeavesForeign store.old store.new instance.now call.now }
{
    store.move_tail(call.name, call.bucket(c));
}

/// Destroys the bucket of a cursor.
pub(crate) fn delete<R: Rings<Stored> + Drop>(
    instance: &Instance,
    call: &Call,
    store: &mut Brigades<R>,
    c: u8,
)
    requires cursor { c < 9 }
    requires held { IsHeld store.old instance.now call.now }
    requires stands { StandsAs store.old instance.now call.now c OnBucket }
    ensures new { (view : ContextView) → let r = seen store.old view instance.now call.now in seen store.new view instance.now call.now ≡ do_delete (at_cursor r c) r }
    ensures held { IsHeld store.new instance.now call.now }
    ensures left { LeavesForeign store.old store.new instance.now call.now }
{
    store.drop_bucket(call.bucket(c));
}

/// Moves a bucket to the tail or the head of a brigade.
fn move_to<R: Rings<Stored> + Drop>(store: &mut Brigades<R>, side: Side, b: BrigadeId, id: BucketId)
    requires brigade { is_some (lists store.old b) ≡ true }
    requires bucket { is_some (brigade_of store.old id) ≡ true }
    ensures out { (q n : ℕ) (x : Bucket) → brigade_of store.old id ≡ Some q → found id (list_at (lists store.old) q) ≡ Some x
        → lists store.new n ≡ on b (put_item side (id, x)) (on q (without id) (lists store.old)) n }
    ensures next { next_name store.new ≡ next_name store.old }
    ensures names { NoneRevived (brigade_of store.old) (brigade_of store.new) (next_name store.old) }
    ensures pools { pool_of store.new ≡ pool_of store.old }
    ensures references { references store.new ≡ references store.old }
    ensures unasked { store.new.asked ≡ store.old.asked }
{
    match side {
        Side::AtTail => store.move_tail(b, id),
        Side::AtHead => store.move_head(b, id),
    }
}

/// Puts the loose bucket of a cursor at the tail or the head of a brigade. It takes no memory.
pub(crate) fn insert<R: Rings<Stored> + Drop>(
    instance: &Instance,
    call: &Call,
    store: &mut Brigades<R>,
    side: Side,
    b: u8,
    c: u8,
)
    requires slot { b < 9 }
    requires cursor { c < 9 }
    requires held { IsHeld store.old instance.now call.now }
    requires live { is_some (live_in (lists store.old) (slot_at instance.now b)) ≡ true }
    requires stands { StandsAs store.old instance.now call.now c OnLoose }
    ensures new { (view : ContextView) → let r = seen store.old view instance.now call.now in seen store.new view instance.now call.now ≡ put_into (put_at side) b (at_cursor r c) r }
    ensures held { IsHeld store.new instance.now call.now }
    ensures left { LeavesForeign store.old store.new instance.now call.now }
{
    move_to(store, side, instance.brigade(b), call.bucket(c));
}

/// Puts the loose bucket of a cursor before that of another, which is in a brigade. It takes no memory.
pub(crate) fn before<R: Rings<Stored> + Drop>(
    instance: &Instance,
    call: &Call,
    store: &mut Brigades<R>,
    c: u8,
    d: u8,
)
    requires first { c < 9 }
    requires second { d < 9 }
    requires held { IsHeld store.old instance.now call.now }
    requires loose { StandsAs store.old instance.now call.now c OnLoose }
    requires within { StandsAs store.old instance.now call.now d InBrigade }
    ensures new { (view : ContextView) → let r = seen store.old view instance.now call.now in seen store.new view instance.now call.now ≡ do_before (at_cursor r c) (at_cursor r d) r }
    ensures held { IsHeld store.new instance.now call.now }
    ensures left { LeavesForeign store.old store.new instance.now call.now }
{
    store.move_before(call.bucket(d), call.bucket(c));
}
