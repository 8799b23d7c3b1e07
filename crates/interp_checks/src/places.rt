//! Where cursors stand (apr_buckets.h: a bucket, or the sentinel of a brigade, is the end of its ring).

ghost use Rattle.std.specs.Prelude.{◌≡◌, ◌<◌, IfSome, ℕ};
ghost use Rattle.interp_checks.specs.Prelude.{found_below, holder_of, place_of_bucket, variable_of, at_cursor, is_named, lists};
ghost use Rattle.interp_checks.specs.Prelude.{brigade_of, ContextView, slot_at, name_in, IsHeld, WasGiven, OnlyAsked, seen_over};
ghost use Rattle.interp_checks.specs.Prelude.{by_birth, place_of, IsInBrigade};

use brigade_ops::{BrigadeId, Brigades, BucketId, Rings, Stored};
use interp_state::cursors::CursorPlace;
use interp_state::machine::{Call, CursorValue, Instance, Slot};

fn is_called(slot: Slot, name: BrigadeId) -> bool
    ensures { result ≡ is_named (name_in slot) name }
{
    match slot {
        Slot::Null => false,
        Slot::Made(made, _, _) => made == name,
    }
}

/// The variable that names a brigade.
fn slot_of(instance: &Instance, name: BrigadeId) -> Option<u8>
    ensures found { result ≡ found_below 9 (λ b. is_named (name_in (slot_at instance.now b)) name) }
    ensures slot { IfSome result (λ b. b < 9) }
{
    for b in (0..9u8).rev() {
        if is_called(instance.slot(b), name) {
            return Some(b);
        }
    }
    None
}

#[tactic(auto, using(crate::proofs::OnlyAsked::asks_once))]
fn bucket_place<R: Rings<Stored> + Drop>(
    instance: &Instance,
    call: &Call,
    store: &mut Brigades<R>,
    id: BucketId,
) -> CursorPlace
    requires held { IsHeld store.old instance.now call.now }
    requires given { WasGiven store.old id }
    ensures at { (next : ℕ) (view : ContextView)
        → let r = seen_over (lists store.old) next view instance.now call.now in by_birth result ≡ place_of (place_of_bucket r id.birth (holder_of r id.birth)) }
    ensures inside { IsInBrigade (brigade_of store.new) instance.now call.now result }
    ensures asked { OnlyAsked store.old store.new }
{
    let Some(ring) = store.ring_of(id) else {
        return CursorPlace::Nowhere;
    };
    if ring == call.name {
        return CursorPlace::Loose(id);
    }
    match slot_of(instance, ring) {
        Some(b) => CursorPlace::Within(b, id),
        None => CursorPlace::Nowhere,
    }
}

/// The variable of a brigade, where it is there.
#[tactic(auto, using(crate::proofs::OnlyAsked::asks_once))]
fn end_place<R: Rings<Stored> + Drop>(
    instance: &Instance,
    store: &mut Brigades<R>,
    b: BrigadeId,
) -> Option<u8>
    ensures at { (next : ℕ) (view : ContextView) (call : Call) → result ≡ variable_of (seen_over (lists store.old) next view instance.now call) b }
    ensures slot { IfSome result (λ b. b < 9) }
    ensures asked { OnlyAsked store.old store.new }
{
    if store.has(b) {
        slot_of(instance, b)
    } else {
        None
    }
}

/// Where a cursor stands.
#[tactic(auto, using(crate::proofs::OnlyAsked::asked_nothing))]
pub(crate) fn place_of<R: Rings<Stored> + Drop>(
    instance: &Instance,
    call: &Call,
    store: &mut Brigades<R>,
    c: u8,
) -> CursorPlace
    requires cursor { c < 9 }
    requires held { IsHeld store.old instance.now call.now }
    ensures at { (next : ℕ) (view : ContextView) → by_birth result ≡ place_of (at_cursor (seen_over (lists store.old) next view instance.now call.now) c) }
    ensures inside { IsInBrigade (brigade_of store.new) instance.now call.now result }
    ensures asked { OnlyAsked store.old store.new }
{
    match call.cursor(c) {
        CursorValue::Unset => CursorPlace::Nowhere,
        CursorValue::At(id) => bucket_place(instance, call, store, id),
        CursorValue::End(name) => match end_place(instance, store, name) {
            Some(b) => CursorPlace::End(b),
            None => CursorPlace::Nowhere,
        },
    }
}
