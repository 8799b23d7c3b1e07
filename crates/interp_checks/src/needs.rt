//! What instructions want of the place of a cursor.

ghost use Rattle.std.specs.Prelude.{◌≡◌, ◌<◌};
ghost use Rattle.interp_checks.specs.Prelude.{WCursor, fault_want, need_of, brigade_of, Call, ContextView, place_fault, IsHeld, OnlyAsked, by_birth, IsInBrigade, seen};

use crate::faults::{mark_of, or_else, passed_fault};
use crate::places::place_of;
use brigade_ops::{Brigades, Rings, Stored};
use interp_state::cursors::CursorPlace;
use interp_state::machine::{Call, Instance};
use run_model::{FaultKind, Need};

/// The fault of a cursor that stands there.
#[tactic(auto, using(crate::proofs::OnlyAsked::asked_nothing, interp_state::proofs::Wanted::passed_told))]
fn place_fault_at<R: Rings<Stored> + Drop>(
    instance: &Instance,
    call: &Call,
    store: &mut Brigades<R>,
    need: Need,
    at_cursor: CursorPlace,
) -> Option<FaultKind>
    requires { IsInBrigade (brigade_of store.old) instance.now call.now at_cursor }
    ensures value { (view : ContextView) → result ≡ place_fault (seen store.old view instance.now call.now) (need_of need) (by_birth at_cursor) }
    ensures asked { OnlyAsked store.old store.new }
{
    match at_cursor {
        CursorPlace::Nowhere => Some(FaultKind::F3),
        CursorPlace::Loose(_) => need.loose_fault(),
        CursorPlace::Within(b, _) => or_else(
            passed_fault(mark_of(instance, store, b)),
            need.within_fault(b),
        ),
        CursorPlace::End(b) => or_else(
            passed_fault(mark_of(instance, store, b)),
            need.end_fault(b),
        ),
    }
}

/// Whether a cursor stands as is wanted: somewhere; in no brigade that was passed; at no end where a bucket is wanted.
#[tactic(auto, using(interp_state::proofs::Wanted::fault_told))]
pub(crate) fn want_cursor<R: Rings<Stored> + Drop>(
    instance: &Instance,
    call: &Call,
    store: &mut Brigades<R>,
    c: u8,
    need: Need,
) -> Option<FaultKind>
    requires cursor { c < 9 }
    requires held { IsHeld store.old instance.now call.now }
    ensures value { (view : ContextView) → result ≡ fault_want (seen store.old view instance.now call.now) (WCursor c (need_of need)) }
    ensures asked { OnlyAsked store.old store.new }
{
    let at_cursor = place_of(instance, call, store, c);
    place_fault_at(instance, call, store, need, at_cursor)
}
