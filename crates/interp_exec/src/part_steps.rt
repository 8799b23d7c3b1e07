//! What instructions do to brigades that are cut (apr_buckets.h, apr_brigade_split_ex).

ghost use Rattle.std.specs.Prelude.{◌≡◌, ◌≢◌, ◌<◌, ℕ, None, Some, true, is_some, IsOk, IfSome, OnOk, OnErr};
ghost use Rattle.interp_exec.specs.Prelude.{list_at, bucket_across, moves, stays, do_bpart, do_bsplit, items_at, names_to_part, place_at, at_cursor, InThis, home_fault, before_place, from_place, lists};
ghost use Rattle.interp_exec.specs.Prelude.{brigade_of, ContextView, EndInFiles, FitKinds, IsHeld, LeavesForeign, StandsAs, cursor_value_of, live_in, name_in, slot_at, seen, shown, calls_in};

use brigade_ops::{BrigadeId, Brigades, BucketId, Cut, Rings, Stored};
use interp_state::machine::{Call, CursorValue, Instance};
use std::alloc::AllocError;

/// The bucket of a cursor that stands in the brigade of a variable; none where it stands at its end.
fn place_in<R: Rings<Stored> + Drop>(
    instance: &Instance,
    call: &Call,
    store: &Brigades<R>,
    b: u8,
    name: BrigadeId,
    c: u8,
) -> Option<BucketId>
    requires cursor { c < 9 }
    requires held { IsHeld store.now instance.now call.now }
    requires named { name_in (slot_at instance.now b) ≡ Some name }
    requires stands { StandsAs store.now instance.now call.now c (InThis b) }
    ensures inside { IfSome result (λ id. brigade_of store.now id ≡ Some name) }
    ensures stays { (view : ContextView) → let r = seen store.now view instance.now call.now in
        shown (calls_in view call.now) (before_place result (list_at (lists store.now) name)) ≡ stays (place_at (at_cursor r c)) (items_at r b) }
    ensures moves { (view : ContextView) → let r = seen store.now view instance.now call.now in
        shown (calls_in view call.now) (from_place result (list_at (lists store.now) name)) ≡ moves (place_at (at_cursor r c)) (items_at r b) }
{
    match call.cursor(c) {
        CursorValue::At(id) => Some(id),
        CursorValue::End(_) => None,
        CursorValue::Unset => unreachable!(),
    }
}

/// What stands in a brigade from the place of a cursor on goes to another, which is emptied first. It takes no memory.
#[tactic(auto, using(interp_state::proofs::Slots::made_in))]
pub(crate) fn bsplit<R: Rings<Stored> + Drop>(
    instance: &Instance,
    call: &Call,
    store: &mut Brigades<R>,
    b: u8,
    c: u8,
    a: u8,
)
    requires from { b < 9 }
    requires cursor { c < 9 }
    requires into { a < 9 }
    requires apart { a ≢ b }
    requires live_from { is_some (live_in (lists store.old) (slot_at instance.now b)) ≡ true }
    requires live_into { is_some (live_in (lists store.old) (slot_at instance.now a)) ≡ true }
    requires held { IsHeld store.old instance.now call.now }
    requires stands { StandsAs store.old instance.now call.now c (InThis b) }
    ensures new { (view : ContextView) → let r = seen store.old view instance.now call.now in seen store.new view instance.now call.now ≡ do_bsplit b (at_cursor r c) a r }
    ensures held { IsHeld store.new instance.now call.now }
    ensures left { LeavesForeign store.old store.new instance.now call.now }
{
    let from = instance.brigade(b);
    let to = instance.brigade(a);
    let place = place_in(instance, call, store, b, from, c);
    store.split_at(from, place, to);
}

/// Where a cursor is set by what a partition answers.
fn cursor_value_of(b: BrigadeId, cut: Cut) -> CursorValue
    ensures { result ≡ cursor_value_of b cut }
{
    match cut {
        Cut::Found(id) => CursorValue::At(id),
        Cut::AtEnd => CursorValue::End(b),
        Cut::Incomplete => CursorValue::End(b),
    }
}

/// Parts a brigade at a point and sets a cursor to the place behind it; a bucket that the point lies inside is split. Where the brigade
/// is shorter the place is its end. Only a bucket that is split takes memory. Without it, and where the names are spent, nothing is changed.
#[tactic(auto, using(interp_state::proofs::Slots::made_in))]
pub(crate) fn bpart<R: Rings<Stored> + Drop>(
    instance: &Instance,
    call: &mut Call,
    store: &mut Brigades<R>,
    b: u8,
    point: u64,
    c: u8,
) -> Result<(), AllocError>
    requires slot { b < 9 }
    requires cursor { c < 9 }
    requires live { is_some (live_in (lists store.old) (slot_at instance.now b)) ≡ true }
    requires fits { FitKinds store.old instance.now }
    requires ends { EndInFiles store.old instance.now }
    requires held { IsHeld store.old instance.now call.old }
    ensures ok { OnOk result ((view : ContextView) → let r = seen store.old view instance.now call.old in
        home_fault (bucket_across point (items_at r b)) ≡ None → seen store.new view instance.now call.new ≡ do_bpart b point c r) }
    ensures sure { (view : ContextView) → let r = seen store.old view instance.now call.old in names_to_part point (items_at r b) ≡ 0 → IsOk result }
    ensures err { OnErr result ((view : ContextView) → seen store.new view instance.now call.new ≡ seen store.old view instance.now call.old) }
    ensures held { IsHeld store.new instance.now call.new }
    ensures name { call.new.name ≡ call.old.name }
    ensures left { LeavesForeign store.old store.new instance.now call.old }
{
    let name = instance.brigade(b);
    let Ok(cut) = store.partition(name, point) else {
        return Err(AllocError);
    };
    call.set_cursor(c, cursor_value_of(name, cut));
    Ok(())
}
