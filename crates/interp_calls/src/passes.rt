//! A brigade is handed from one filter to the next.

ghost use Rattle.std.specs.Prelude.{◌≡◌, ◌≢◌, ◌==◌, ◌<◌, ◌||◌, ℕ, Bool, Some, None, true, is_some, if◌then◌else◌};
ghost use Rattle.interp_calls.specs.Prelude.{list_at, has_eos, is_eos_kind, set_brigade, do_pass, lists, Call, ContextView, contents, lent, IsHeld, seen, calls_in, shown, shown_slot, live_in, marked};
ghost use Rattle.interp_calls.specs.Prelude.{name_in, slot_at};

use brigade_ops::{BrigadeId, Brigades, BucketId, Rings, Stored, View, Visitor};
use interp_state::machine::{Instance, Slot};
use run_model::{Kind, Mark};

/// Whether it is an EOS.
pub(crate) fn is_eos(kind: Kind) -> bool
    ensures { result ≡ is_eos_kind kind }
{
    matches!(kind, Kind::Eos)
}

/// What looks for an EOS.
#[derive(Drop)]
struct FirstEos;

impl Visitor for FirstEos {
    ghost visits = { λ s id x stop t. (t ≡ s) × (stop ≡ is_eos_kind x.kind) };

    fn stops_at(&mut self, _id: BucketId, bucket: &View<'_>) -> bool {
        is_eos(bucket.kind)
    }
}

/// Whether an EOS stands in a brigade.
pub(crate) fn has_eos<R: Rings<Stored> + Drop>(store: &Brigades<R>, b: BrigadeId) -> bool
    requires { is_some (lists store.now b) ≡ true }
    ensures { (runs : ℕ → Bool) → result ≡ has_eos (shown runs (list_at (lists store.now) b)) }
{
    store.visit(b, &mut FirstEos).is_some()
}

/// Whether an EOS stands in the brigade of a variable.
#[tactic(auto, using(interp_state::proofs::Slots::made_in))]
fn holds_eos<R: Rings<Stored> + Drop>(instance: &Instance, store: &Brigades<R>, b: u8) -> bool
    requires slot { b < 9 }
    requires live { is_some (live_in (lists store.now) (slot_at instance.now b)) ≡ true }
    ensures { (runs : ℕ → Bool) → result ≡ has_eos (contents runs (lists store.now) (live_in (lists store.now) (slot_at instance.now b))) }
{
    has_eos(store, instance.brigade(b))
}

/// Hands a brigade over. What is in it stays where it is; the variable is marked passed, and it is remembered where an EOS went with it.
/// Until the next filter returns it reads as empty (`lent`), and then as what that filter left.
pub fn hand_over<R: Rings<Stored> + Drop>(instance: &mut Instance, store: &Brigades<R>, b: u8)
    requires slot { b < 9 }
    requires live { is_some (live_in (lists store.now) (slot_at instance.old b)) ≡ true }
    ensures seen { (view : ContextView) (call : Call) → lent b (seen store.now view instance.new call) ≡ do_pass b (seen store.now view instance.old call) }
    ensures held { (call : Call) → IsHeld store.now instance.old call → IsHeld store.now instance.new call }
    ensures slots { (a : ℕ) → slot_at instance.new a ≡ (if a == b then marked Mark.Passed (slot_at instance.old b) else slot_at instance.old a) }
{
    let eos = holds_eos(instance, store, b);
    hand_over_with(instance, store, b, eos);
}

/// Hands a brigade over as `hand_over` does, where it is known already whether an EOS stands in it.
pub(crate) fn hand_over_with<R: Rings<Stored> + Drop>(
    instance: &mut Instance,
    store: &Brigades<R>,
    b: u8,
    eos: bool,
)
    requires slot { b < 9 }
    requires live { is_some (live_in (lists store.now) (slot_at instance.old b)) ≡ true }
    requires eos { (runs : ℕ → Bool) → eos ≡ has_eos (contents runs (lists store.now) (live_in (lists store.now) (slot_at instance.old b))) }
    ensures seen { (view : ContextView) (call : Call) → lent b (seen store.now view instance.new call) ≡ do_pass b (seen store.now view instance.old call) }
    ensures held { (call : Call) → IsHeld store.now instance.old call → IsHeld store.now instance.new call }
    ensures slots { (a : ℕ) → slot_at instance.new a ≡ (if a == b then marked Mark.Passed (slot_at instance.old b) else slot_at instance.old a) }
{
    instance.note_sent(eos);
    instance.set_mark(b, Mark::Passed);
}

/// Takes a brigade that the filter before hands on, as `in`: it is usable, and on no pool. It is in no other variable of the instance.
pub fn take_in<R: Rings<Stored> + Drop>(
    instance: &mut Instance,
    store: &Brigades<R>,
    name: BrigadeId,
)
    requires { is_some (lists store.now name) ≡ true }
    ensures seen { (view : ContextView) (call : Call)
        → seen store.now view instance.new call
        ≡ set_brigade 8 (shown_slot (calls_in view call) (lists store.now) (Slot.Made name None Mark.Usable)) (seen store.now view instance.old call) }
    ensures slots { (a : ℕ) → slot_at instance.new a ≡ (if a == 8 then Slot.Made name None Mark.Usable else slot_at instance.old a) }
    ensures held { (call : Call) → ((a : ℕ) → name_in (slot_at instance.old a) ≢ Some name) → name ≢ call.name → 0 < name → IsHeld store.now instance.old call → IsHeld store.now instance.new call }
{
    instance.set_slot(8, Slot::Made(name, None, Mark::Usable));
}
